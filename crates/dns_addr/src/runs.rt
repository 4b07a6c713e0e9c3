ghost use Rattle.std.specs.Prelude.{◌≡◌, ◌+◌, ◌≤◌, length, max};
ghost use Rattle.dns_addr.specs.AddrText.{first_run, longest, zeros};

/// How long the longest run of zeros is.
pub(crate) fn longest(groups: &[u16]) -> usize
    ensures value { result ≡ longest groups.now }
{
    let mut most = 0;
    for at in 0..groups.len() {
        most = larger(most, zeros(&groups[at..]));
    }
    most
}

/// Where the first run of so many zeros begins.
pub(crate) fn first_run(groups: &[u16], size: usize) -> usize
    requires { size ≡ longest groups.now }
    ensures value { result ≡ first_run size groups.now }
    ensures inside { result + size ≤ length groups.now }
{
    for at in 0..groups.len() {
        if zeros(&groups[at..]) == size {
            return at;
        }
    }
    groups.len()
}

fn larger(a: usize, b: usize) -> usize
    ensures { result ≡ max a b }
{
    if a < b { b } else { a }
}

// How many zeros stand first.
fn zeros(groups: &[u16]) -> usize
    ensures value { result ≡ zeros groups.now }
    ensures inside { result ≤ length groups.now }
{
    let mut count = 0;
    for group in groups {
        if *group != 0 {
            return count;
        }
        count += 1;
    }
    count
}
