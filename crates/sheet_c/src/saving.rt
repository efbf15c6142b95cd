// Writing the sheet of a scene, for C, by the function of the crate `sheet` under its name.

ghost use Rattle.writing.specs.Lent.{WriteAnswer};

// Writes the sheet of m bodies and k relations.
#[unsafe(no_mangle)]
pub extern "C" fn sheet_write(
    m: u16,
    k: u16,
    bytes: &[u8],
    words: &[u16],
    numbers: &[f64],
    sheet: &mut [u8],
) -> u32
    ensures { WriteAnswer m k bytes.now words.now numbers.now result sheet.old sheet.new }
{
    sheet::saving::sheet_write(m, k, bytes, words, numbers, sheet)
}
