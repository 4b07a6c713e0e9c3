/// What a line of the body is, by its first word.
#[derive(Clone, Copy, Debug, PartialEq, Eq)]
pub enum Opens {
    Except,
    ForceTcp,
    Policy,
    MaxFails,
    /// No option.
    Other,
}

/// Which options stood in lines before.
#[derive(Clone, Copy, Debug, PartialEq, Eq)]
pub struct OptionsSeen {
    pub except: bool,
    pub force_tcp: bool,
    pub policy: bool,
    pub max_fails: bool,
}
