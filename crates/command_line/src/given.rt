ghost use Rattle.std.specs.Prelude.{◌≡◌};
ghost use Rattle.command_line.specs.Options.{once, with_choice};

use crate::choice::Choice;

/// The options that were read so far.
#[derive(Clone, Copy)]
pub(crate) struct Given<'a> {
    pub conf: Option<&'a str>,
    pub port: Option<u16>,
    pub workers: Option<u64>,
    pub queries: Option<u64>,
}

impl<'a> Given<'a> {
    /// With a further one, unless it was given before.
    pub fn with(self, choice: Choice<'a>) -> Option<Given<'a>>
        ensures { result ≡ with_choice self.entry choice.entry }
    {
        match choice {
            Choice::Conf(file) => {
                let conf = Some(file);
                once(self.conf, Given { conf, ..self })
            }
            Choice::Port(port) => {
                let port = Some(port);
                once(self.port, Given { port, ..self })
            }
            Choice::Workers(workers) => {
                let workers = Some(workers);
                once(self.workers, Given { workers, ..self })
            }
            Choice::Queries(queries) => {
                let queries = Some(queries);
                once(self.queries, Given { queries, ..self })
            }
        }
    }
}

// What is given, unless the further one was given before.
fn once<'a, T: Drop>(before: Option<T>, given: Given<'a>) -> Option<Given<'a>>
    ensures { result ≡ once before given.entry }
{
    if before.is_some() {
        return None;
    }
    Some(given)
}
