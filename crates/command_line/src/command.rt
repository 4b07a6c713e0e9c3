ghost use Rattle.std.specs.Prelude.{◌≤◌, ℕ, IfSome, MatchOption};
ghost use Rattle.command_line.specs.Command.{CommandData, ServeData, IsCommand, IsServe, IsLoad};
ghost use Rattle.command_line.specs.Command.{command_data, serve_data, IsInRange, ServesInRange};

use crate::bounds::{DEFAULT_PORT, DEFAULT_WORKERS, LOAD};
use crate::choice::{read_choice, read_most};
use crate::given::Given;
use dns_data::{Text, limit};

/// What the words of the command line ask for.
#[derive(Clone, Copy, Debug)]
pub enum Command<'a> {
    /// To serve by a Corefile.
    Serve(Serve<'a>),
    /// To run a load of so many queries.
    Load(u64),
}

/// How to serve.
#[derive(Clone, Copy, Debug)]
pub struct Serve<'a> {
    /// The name of the Corefile.
    pub conf: &'a str,
    /// The port of keys that name none.
    pub port: u16,
    /// How many workers each port and transport has.
    pub workers: u64,
    /// How many datagrams each worker takes at most.
    pub most: u64,
}

/// Reads `serve --conf FILE [--port N] [--workers N] [--queries N]`, with the options in any order,
/// or `load N`, without the program's own name. Any other words are no command.
pub fn read_command(words: &[Text]) -> Option<Command<'_>>
    ensures command { MatchOption result ((c : CommandData) → IsCommand words.now c → ⊥)
        (λ c. IsCommand words.now (command_data c)) }
    ensures range { IfSome result (λ c. IsInRange (command_data c)) }
{
    let (first, others) = words.split_first()?;
    match first.as_str() {
        "serve" => match read_serve(others) {
            Some(serve) => Some(Command::Serve(serve)),
            None => None,
        },
        "load" => match read_load(others) {
            Some(number) => Some(Command::Load(number)),
            None => None,
        },
        _ => None,
    }
}

// The options behind `serve`.
fn read_serve(words: &[Text]) -> Option<Serve<'_>>
    ensures serve { MatchOption result ((c : ServeData) → IsServe words.now c → ⊥)
        (λ c. IsServe words.now (serve_data c)) }
    ensures range { IfSome result (λ c. ServesInRange (serve_data c)) }
{
    let mut given = Given {
        conf: None,
        port: None,
        workers: None,
        queries: None,
    };
    let mut rest = words;
    while 0 < rest.len() {
        let Some((choice, behind)) = read_choice(rest) else {
            return None;
        };
        let Some(more) = given.with(choice) else {
            return None;
        };
        given = more;
        rest = behind;
    }
    let Some(conf) = given.conf else {
        return None;
    };
    Some(Serve {
        conf,
        port: given.port.unwrap_or(DEFAULT_PORT),
        workers: given.workers.unwrap_or(DEFAULT_WORKERS),
        most: given.queries.unwrap_or(limit::TURNS),
    })
}

// The number behind `load`.
fn read_load(words: &[Text]) -> Option<u64>
    ensures load { MatchOption result ((n : ℕ) → IsLoad words.now n → ⊥) (IsLoad words.now) }
    ensures range { IfSome result (λ n. (1 ≤ n) × (n ≤ LOAD)) }
{
    let (number, others) = words.split_first()?;
    if 0 < others.len() {
        return None;
    }
    read_most(number.as_str(), LOAD)
}
