//! The TTLs with which records are written.
ghost use Rattle.std.specs.Prelude.{◌≡◌, ◌<◌, ◌^◌, ℕ};
ghost use Rattle.dns_data.specs.Record.{RecordData};

use dns_data::Record;

/// The TTL with which each record is written, in seconds.
pub trait Ttls {
    ghost ttl_of: { Self → RecordData → ℕ };

    fn ttl(&self, rr: &Record) -> u32
        ensures is { result ≡ ttl_of self.now rr.now }
        ensures small { ttl_of self.now rr.now < 2 ^ 31 };
}

/// Each record's own.
#[derive(Drop)]
pub struct Own;

impl Ttls for Own {
    ghost ttl_of = { λ own r. r.ttl };

    #[inline(always)]
    fn ttl(&self, rr: &Record) -> u32 {
        rr.ttl
    }
}

/// The same for all.
#[derive(Drop)]
pub struct Same {
    ttl: u32,
    ghost small: { ttl < 2 ^ 31 },
}

impl Same {
    pub fn new(ttl: u32) -> Same
        requires { ttl < 2 ^ 31 }
        ensures { result.ttl ≡ ttl }
    {
        Same { ttl }
    }
}

impl Ttls for Same {
    ghost ttl_of = { λ same r. same.ttl };

    #[inline(always)]
    fn ttl(&self, _rr: &Record) -> u32 {
        self.ttl
    }
}
