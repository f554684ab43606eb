// The lines of a listing.
ghost use Rattle.std.specs.Prelude.{◌≡◌, ◌++◌, string_bytes, OnOk};
ghost use Rattle.format.specs.Faults.{told};
ghost use Rattle.block.specs.Told.{of_read};
ghost use Rattle.listing.specs.Listing.{line, closing};

use block::fault::ReadFault;
use format::fault::Tells;
use std::alloc::AllocError;

// The line of an entry.
pub(crate) fn push_line(
    text: &mut String,
    ordinal: u64,
    key: &[u8],
    value: u64,
) -> Result<(), AllocError>
    ensures { OnOk result (string_bytes text.new
        ≡ string_bytes text.old ++ line ordinal (record { key = key.entry.now; value = value })) }
{
    let digits = hex::encode(*text.allocator(), key)?;
    writeln!(text, "{ordinal}\t{digits}\t{value}")
}

// The last line: how many entries there are, or the fault behind them.
pub(crate) fn push_last_line(
    text: &mut String,
    counted: Result<u64, ReadFault>,
) -> Result<(), AllocError>
    ensures { OnOk result (string_bytes text.new ≡ string_bytes text.old ++ closing (told of_read counted)) }
{
    match counted {
        Ok(count) => writeln!(text, "end\t{count}"),
        Err(fault) => {
            let number = fault.number();
            let place = fault.place();
            writeln!(text, "fault\t{number}\t{place}")
        }
    }
}
