ghost use Rattle.block_readings.specs.Readings.{BlockReading};
ghost use Rattle.dns_server.specs.Readings.{bare_reading};

use std::marker::Model;

/// What a block reads, as a type. No value of it is made.
pub(crate) struct Reading {}

impl Model for Reading {
    ghost Value = { BlockReading };

    ghost view = { λ _. bare_reading };
}
