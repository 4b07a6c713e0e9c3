use corefile_words::Pair;
use dns_data::Text;

/// What a configuration is read from: the name of the Corefile, and the environment.
#[derive(Clone, Copy, Debug)]
pub struct Source<'a> {
    pub conf: &'a Text,
    pub env: &'a [Pair],
}
