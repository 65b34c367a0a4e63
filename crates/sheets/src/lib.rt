#![tactic(auto)]

ghost use Rattle.std.specs.Prelude.{length};
ghost use Rattle.sheets.specs.SheetEntry.{SheetAllows};
ghost use Rattle.sheets.specs.Holding.{Holding, Valued};

use refusal::Refusal;

// An accepted sheet: N, the words filled, and the value sheet's length.
#[derive(Clone, Copy)]
pub struct SheetCounts {
    pub atoms: usize,
    pub words: usize,
    pub bytes: usize,
}

// Prints the value sheet, or clears the buffers where it does not fit.
fn print_or_clear(
    sheet: &[u8],
    words: &mut [u16],
    names: &mut [u32],
    n: usize,
    w: usize,
    values: &[u8],
    text: &mut [u8],
) -> Result<SheetCounts, Refusal>
    requires holding { Holding sheet.now (length words.old) (length names.old) n w words.old names.old }
    requires valued { Valued sheet.now (length words.old) (length names.old) n values.now }
    ensures { SheetAllows sheet.now (length words.old) (length names.old) text.old result words.new names.new text.new }
{
    let printed = valuesheet::print(sheet, names, n, values, text);
    match printed {
        Ok(bytes) => Ok(SheetCounts {
            atoms: n,
            words: w,
            bytes,
        }),
        Err(r) => {
            buffers::clear(words, names);
            Err(r)
        }
    }
}

// Evaluates the table that the sheet has given, and prints.
fn value_and_print(
    sheet: &[u8],
    words: &mut [u16],
    names: &mut [u32],
    n: usize,
    w: usize,
    text: &mut [u8],
) -> Result<SheetCounts, Refusal>
    requires { Holding sheet.now (length words.old) (length names.old) n w words.old names.old }
    ensures { SheetAllows sheet.now (length words.old) (length names.old) text.old result words.new names.new text.new }
{
    let mut values = [0u8; limits::MOST_ATOMS];
    let answer = evaluation::evaluate(n as u64, &words[..w], &mut values);
    match answer {
        Ok(()) => print_or_clear(sheet, words, names, n, w, &values, text),
        Err(r) => {
            buffers::clear(words, names);
            Err(r)
        }
    }
}

// The sheet entry: reads a sheet into words and name entries, and prints every value in the smallest well-supported model of its rules.
pub fn read_sheet(
    sheet: &[u8],
    words: &mut [u16],
    names: &mut [u32],
    text: &mut [u8],
) -> Result<SheetCounts, Refusal>
    ensures { SheetAllows sheet.now (length words.old) (length names.old) text.old result words.new names.new text.new }
{
    let filled = sheetwords::read_words(sheet, words, names)?;
    value_and_print(sheet, words, names, filled.atoms, filled.words, text)
}
