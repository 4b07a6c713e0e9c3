//! What plugins with patterns share: definitions of how the patterns of a configuration are made
//! one after another, up to the first fault. They are in specs/; there is no code.
#![tactic(auto)]
