// A refusal by document 01's number, its name, and its values; places count from the first octet of the input.
use print::Printer;
use types::WireError;

// A place in the octets at hand, of which the first one stands at `base`.
fn placed(base: u64, e: WireError) -> WireError {
    match e {
        WireError::NotWritten(place) => {
            WireError::NotWritten(base.wrapping_add(place as u64) as usize)
        }
        _ => e,
    }
}

// Stands behind something else, as after a space.
pub(crate) fn refused(printer: &mut Printer, base: u64, e: WireError) {
    write!(
        printer,
        " refused {} {:?}",
        e.numbered().number,
        placed(base, e)
    );
}
