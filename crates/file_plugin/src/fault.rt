use dns_data::NoMemory;
use plugin_api::DirectiveFault;
use zone_file::ZoneWhy;

/// Why a directive `file` is refused.
#[derive(Clone, Copy, Debug, PartialEq, Eq)]
pub enum FileFault {
    /// As any directive may be.
    Directive(DirectiveFault),
    /// What is wrong at a line of its file, and the directive's line.
    Zone { line: u32, at: u32, why: ZoneWhy },
}

impl From<NoMemory> for FileFault {
    ghost use Rattle.std.specs.Prelude.{◌≡◌};
    ghost use Rattle.plugin_api.specs.declared.fault.DirectiveFault.TheVariants as directive;
    ghost use Rattle.file_plugin.specs.declared.fault.FileFault.TheVariants as variants;

    ghost from_gives = { λ _ fault. fault ≡ variants.Directive directive.NoMemory };

    fn from(_: NoMemory) -> FileFault {
        FileFault::Directive(DirectiveFault::NoMemory)
    }
}
