use std::time::Clock;

/// The milliseconds since some start, which never go back. None where the clock can't be read.
pub fn moment(clock: &impl Clock) -> Option<u64> {
    match clock.monotonic() {
        Ok(time) => Some(u64::try_from(time.as_millis()).unwrap_or(u64::MAX)),
        Err(_) => None,
    }
}
