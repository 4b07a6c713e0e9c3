use os::FromRawFd;
use std::os::fd::OwnedFd;

/// Opens the descriptors 0, 1 and 2 on /dev/null where they are closed, so that no socket and no
/// file gets their numbers, to be taken for one of the streams. It is called before anything else
/// is opened.
pub fn open_standard() {
    for _ in 0..3 {
        let fd = os::open_update(b"/dev/null");
        if fd < 0 {
            return;
        }
        // The lowest number that is free: above 2, all three are open.
        if fd > 2 {
            // SAFETY: the descriptor was just opened, and nothing else has it.
            let _spare = unsafe { OwnedFd::from_raw_fd(fd) };
            return;
        }
    }
}
