//! What the sides and the watch of a load are to give.
ghost use Rattle.std.specs.Prelude.{◌≡◌, IfOk};
ghost use Rattle.outside.specs.Script.{gets_alone, looks_alone};
ghost use Rattle.load_maker.specs.Scripts.{conf_name, files_with, is_by, looks_of, queries_by};

use crate::Load;
use dns_data::{Bytes, Copies, FileText, NoMemory, Text, Transport};
use outside::{Datagram, FileSet, SideScript, WatchScript};
use std::alloc::Global;

const CONF: &str = "/Corefile";

const ZONE: &str = "/db.load";

/// The name of the Corefile of a load.
pub fn conf_name(alloc: Global) -> Result<Text, NoMemory>
    ensures { IfOk result (λ name. name ≡ conf_name) }
{
    Text::from_str(alloc, CONF)
}

impl Load {
    /// What the side of this transport gives: the queries that come by it, in their order. No call
    /// fails, and each reading of the clock is 0.
    pub fn side(&self, alloc: Global, by: Transport) -> Result<SideScript, NoMemory>
        ensures { IfOk result (λ script. script ≡ gets_alone (queries_by by self.now.datagrams)) }
    {
        let mut gets = Vec::new(alloc);
        for datagram in self.datagrams.as_slice() {
            if is_by(datagram, by) {
                gets.push(datagram.copy(alloc)?)?;
            }
        }
        Ok(SideScript::of_gets(alloc, gets))
    }

    /// What the watch finds: the Corefile at the start, and its second form at the one look, each
    /// with the zone. No call fails.
    pub fn watch(&self, alloc: Global) -> Result<WatchScript, NoMemory>
        ensures { IfOk result (λ script. script ≡ looks_alone (looks_of self.now)) }
    {
        let mut looks = Vec::new(alloc);
        looks.push(self.files_with(alloc, &self.conf)?)?;
        looks.push(self.files_with(alloc, &self.second)?)?;
        Ok(WatchScript::of_looks(alloc, looks))
    }

    // The files with this form of the Corefile.
    fn files_with(&self, alloc: Global, conf: &Bytes) -> Result<FileSet, NoMemory>
        ensures { IfOk result (λ set. set ≡ files_with conf.now self.now.zone) }
    {
        let mut set = FileSet::of_file(alloc, CONF, conf.as_slice())?;
        set.files.push(FileText {
            name: Text::from_str(alloc, ZONE)?,
            bytes: Some(self.zone.copy(alloc)?),
        })?;
        Ok(set)
    }
}

fn is_by(datagram: &Datagram, by: Transport) -> bool
    ensures { result ≡ is_by by datagram.now }
{
    match (datagram.by, by) {
        (Transport::Udp, Transport::Udp) | (Transport::Tcp, Transport::Tcp) => true,
        (Transport::Udp, Transport::Tcp) | (Transport::Tcp, Transport::Udp) => false,
    }
}
