//! What a whole run is given: its words, the environment, the files that its watch finds, and what
//! its sides give.

use case_fields::{CaseFault, read_bytes, read_text};
use corefile_words::Pair;
use dns_data::{Addr, Buffer, Bytes, FileText, Seq, Text, Transport};
use outside::{Datagram, FileSet, Outcome, SideScript, WatchScript};
use std::alloc::Global;

/// What the lines so far say of a run.
#[derive(Drop)]
pub struct RunCase {
    pub words: Vec<Text>,
    pub env: Vec<Pair>,
    pub watch: WatchScript,
    /// In the order in which they are opened.
    pub sides: Vec<SideScript>,
    /// How many sinkholes are handed in.
    pub sinkholes: u32,
}

impl RunCase {
    /// A run of which nothing was said.
    pub fn new(alloc: Global) -> RunCase {
        RunCase {
            words: Vec::new(alloc),
            env: Vec::new(alloc),
            watch: WatchScript::of_looks(alloc, Vec::new(alloc)),
            sides: Vec::new(alloc),
            sinkholes: 0,
        }
    }

    /// Takes in a line.
    pub fn take(&mut self, alloc: Global, line: &str) -> Result<(), CaseFault> {
        let (key, fields) = line.split_once(' ').unwrap_or((line, ""));
        match key {
            "words" => self.take_words(alloc, fields),
            "env" => self.take_env(alloc, fields),
            "set" => self.take_set(alloc),
            "file" => self.take_file(alloc, fields),
            "watchfail" => self.take_failing(fields),
            "side" => self.take_side(alloc),
            "extras" => self.take_extras(fields),
            _ => match self.sides.last_mut() {
                Some(script) => take_of_side(alloc, script, key, fields),
                None => Err(CaseFault::Bad),
            },
        }
    }

    fn take_env(&mut self, alloc: Global, fields: &str) -> Result<(), CaseFault> {
        let pair = read_pair(alloc, fields)?;
        Ok(self.env.push(pair)?)
    }

    // A set of no files yet.
    fn take_set(&mut self, alloc: Global) -> Result<(), CaseFault> {
        let files = Seq::new(alloc);
        Ok(self.watch.looks.push(FileSet { files })?)
    }

    // A side of which nothing was said.
    fn take_side(&mut self, alloc: Global) -> Result<(), CaseFault> {
        let script = SideScript::of_gets(alloc, Vec::new(alloc));
        Ok(self.sides.push(script)?)
    }

    fn take_words(&mut self, alloc: Global, fields: &str) -> Result<(), CaseFault> {
        for field in fields.split(' ') {
            self.words.push(read_text(alloc, field)?)?;
        }
        Ok(())
    }

    // A file of the last set.
    fn take_file(&mut self, alloc: Global, fields: &str) -> Result<(), CaseFault> {
        let Some(set) = self.watch.looks.last_mut() else {
            return Err(CaseFault::Bad);
        };
        let file = read_file(alloc, fields)?;
        Ok(set.files.push(file)?)
    }

    // How many sinkholes are handed in.
    fn take_extras(&mut self, fields: &str) -> Result<(), CaseFault> {
        let ("sinkhole", count) = parted(fields)? else {
            return Err(CaseFault::Bad);
        };
        let Ok(count) = count.parse::<u32>() else {
            return Err(CaseFault::Bad);
        };
        self.sinkholes = count;
        Ok(())
    }

    // Which calls of the watch are to fail.
    fn take_failing(&mut self, fields: &str) -> Result<(), CaseFault> {
        match fields.split_once(' ') {
            Some(("read", numbers)) => push_numbers(&mut self.watch.fail_read, numbers),
            Some(("note", numbers)) => push_numbers(&mut self.watch.fail_note, numbers),
            _ => Err(CaseFault::Bad),
        }
    }
}

// What a side gives.
fn take_of_side(
    alloc: Global,
    script: &mut SideScript,
    key: &str,
    fields: &str,
) -> Result<(), CaseFault> {
    match key {
        "get" => take_datagram(alloc, script, fields),
        "nows" => push_numbers(&mut script.nows, fields),
        "words_read" => push_numbers(&mut script.words, fields),
        "asks" if fields.is_empty() => Ok(()),
        "asks" => push_outcomes(alloc, &mut script.asks, fields),
        "fail" => take_failing_of_side(script, fields),
        _ => Err(CaseFault::Bad),
    }
}

fn take_datagram(alloc: Global, script: &mut SideScript, fields: &str) -> Result<(), CaseFault> {
    let datagram = read_datagram(alloc, fields)?;
    Ok(script.gets.push(datagram)?)
}

// Which calls of a side are to fail.
fn take_failing_of_side(script: &mut SideScript, fields: &str) -> Result<(), CaseFault> {
    let (call, numbers) = parted(fields)?;
    match call {
        "recv" => push_numbers(&mut script.fail_recv, numbers),
        "send" => push_numbers(&mut script.fail_send, numbers),
        "ask" => push_numbers(&mut script.fail_ask, numbers),
        "note" => push_numbers(&mut script.fail_note, numbers),
        _ => Err(CaseFault::Bad),
    }
}

fn push_numbers(numbers: &mut Vec<u64>, fields: &str) -> Result<(), CaseFault> {
    for field in fields.split(' ') {
        let Ok(number) = field.parse::<u64>() else {
            return Err(CaseFault::Bad);
        };
        numbers.push(number)?;
    }
    Ok(())
}

// What upstreams do.
fn push_outcomes(
    alloc: Global,
    outcomes: &mut Vec<Outcome>,
    fields: &str,
) -> Result<(), CaseFault> {
    for field in fields.split(' ') {
        let outcome = read_outcome(alloc, field)?;
        outcomes.push(outcome)?;
    }
    Ok(())
}

fn read_outcome(alloc: Global, field: &str) -> Result<Outcome, CaseFault> {
    match field.split_once(':') {
        Some(("got", bytes)) => Ok(Outcome::Got(Bytes::of(read_bytes(alloc, bytes)?))),
        Some(_) => Err(CaseFault::Bad),
        None => match field {
            "silence" => Ok(Outcome::Silence),
            "failed" => Ok(Outcome::Failed),
            _ => Err(CaseFault::Bad),
        },
    }
}

// A field, and the fields behind it.
fn parted(fields: &str) -> Result<(&str, &str), CaseFault> {
    match fields.split_once(' ') {
        Some(parts) => Ok(parts),
        None => Err(CaseFault::Bad),
    }
}

// A variable: its name and its value.
fn read_pair(alloc: Global, fields: &str) -> Result<Pair, CaseFault> {
    let (name, value) = parted(fields)?;
    let name = read_text(alloc, name)?;
    let value = read_text(alloc, value)?;
    Ok(Pair { name, value })
}

// A file: its name and its bytes.
fn read_file(alloc: Global, fields: &str) -> Result<FileText, CaseFault> {
    let (name, bytes) = parted(fields)?;
    let name = read_text(alloc, name)?;
    let bytes = Some(Bytes::of(read_bytes(alloc, bytes)?));
    Ok(FileText { name, bytes })
}

// A datagram: its bytes, the client's address and port, the transport, and the port of the server.
fn read_datagram(alloc: Global, fields: &str) -> Result<Datagram, CaseFault> {
    let (bytes, fields) = parted(fields)?;
    let (client, fields) = parted(fields)?;
    let (port, fields) = parted(fields)?;
    let (by, local) = parted(fields)?;
    let client = read_client(client)?;
    let port = read_port(port)?;
    let by = read_transport(by)?;
    let local = read_port(local)?;
    Ok(Datagram {
        bytes: read_buffer(alloc, bytes)?,
        client,
        port,
        by,
        local,
    })
}

fn read_client(field: &str) -> Result<Addr, CaseFault> {
    match Addr::read(field.as_bytes()) {
        Some(addr) => Ok(addr),
        None => Err(CaseFault::Bad),
    }
}

fn read_port(field: &str) -> Result<u16, CaseFault> {
    match field.parse::<u16>() {
        Ok(port) => Ok(port),
        Err(_) => Err(CaseFault::Bad),
    }
}

fn read_transport(field: &str) -> Result<Transport, CaseFault> {
    match field {
        "udp" => Ok(Transport::Udp),
        "tcp" => Ok(Transport::Tcp),
        _ => Err(CaseFault::Bad),
    }
}

fn read_buffer(alloc: Global, field: &str) -> Result<Buffer, CaseFault> {
    let bytes = read_bytes(alloc, field)?;
    Ok(Buffer::from_slice(alloc, &bytes)?)
}
