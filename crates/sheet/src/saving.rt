// A scene's sheet, exported for C: 0, or the number of the test that refuses the scene; then nothing lent has changed. writing's specs/Lent.antt has the definitions.

ghost use Rattle.writing.specs.Lent.{WriteAnswer};

use faults::fault::number_of;
use writing::write::write;

// Writes the sheet of m bodies and k relations.
#[unsafe(no_mangle)]
pub extern "C" fn sheet_write(
    m: u16,
    k: u16,
    bytes: &[u8],
    words: &[u16],
    numbers: &[f64],
    sheet: &mut [u8],
) -> u32
    ensures { WriteAnswer m k bytes.now words.now numbers.now result sheet.old sheet.new }
{
    number_of(write(m, k, bytes, words, numbers, sheet))
}
