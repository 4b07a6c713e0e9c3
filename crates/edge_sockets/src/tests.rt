mod addresses;
mod senders;
