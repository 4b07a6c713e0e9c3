ghost use Rattle.std.specs.Prelude.{◌≡◌};
ghost use Rattle.edge_net.specs.Pauses.{longer};

// The longest pause, in milliseconds.
const LONGEST: u64 = 100;

/// The pause behind a failing receive, by the one behind the failure before it, 0 where there was
/// none: 1, 2, 4 and so on up to 100 milliseconds.
pub fn longer(pause: u64) -> u64
    ensures { result ≡ longer pause }
{
    if pause == 0 {
        return 1;
    }
    if pause >= LONGEST / 2 {
        return LONGEST;
    }
    2 * pause
}
