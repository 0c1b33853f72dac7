//! Copies of short names, each in as many bytes, so that the place of a name's bytes is known from its number.

ghost use Rattle.std.specs.Prelude.{◌≡◌, List, ℕ, IfErr, IfOk};
ghost use Rattle.h3_lines.specs.declared.run_error.Fault.TheVariants.{Memory};
ghost use Rattle.h3_lines.specs.declared.run_error.RunError.TheVariants as refusal;
ghost use Rattle.h3_rows.specs.Areas.{names_in};
ghost use Rattle.h3_command.specs.ShortNames.{AreShort, IsShort};

use h3_lines::{Fault, RunError, SHORT};
use h3_rows::Names;
use std::alloc::Global;

/// The copy of a name: the first `count` of the bytes. A name that is longer has none: its count is above `SHORT`.
#[derive(Clone, Copy, Drop)]
pub(crate) struct ShortName {
    pub(crate) bytes: [u8; SHORT],
    pub(crate) count: u8,
}

/// The copy of a name.
fn short_name(name: &[u8]) -> ShortName
    ensures { IsShort name.now result }
{
    let mut bytes = [0; SHORT];
    let count = name.len();
    if count > SHORT {
        return ShortName {
            bytes,
            count: u8::MAX,
        };
    }
    bytes[..count].copy_from_slice(name);
    ShortName {
        bytes,
        count: count as u8,
    }
}

/// The copies of all names, by their numbers. `Fault::Memory` if there is no memory for them.
pub(crate) fn short_names(alloc: Global, names: &Names) -> Result<Vec<ShortName>, RunError>
    ensures ok { IfOk result (λ short.
        AreShort (names_in names.now.bytes.items names.now.spans.items) short.items) }
    ensures err { IfErr result (λ e. e ≡ refusal.Fault Memory) }
{
    let mut short = Vec::new(alloc);
    for number in 0..names.spans.len() {
        let name = names.get(number).unwrap_or(b"");
        short
            .push(short_name(name))
            .map_err(|_| RunError::Fault(Fault::Memory))?;
    }
    Ok(short)
}
