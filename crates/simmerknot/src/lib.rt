#![tactic(auto)]

ghost use Rattle.std.specs.Prelude.{◌≡◌};
ghost use Rattle.host.specs.Evaluation.{HostEvaluation};
ghost use Rattle.host.specs.Conflict.{HostConflict};
ghost use Rattle.hostsheet.specs.SheetBytes.{HostSheet};
ghost use Rattle.hostreasons.specs.CheckBytes.{HostCheck};
ghost use Rattle.hostreasons.specs.ReasonBytes.{HostReasons};

// Evaluation for a host in C: include/simmerknot.h says how it is used.
#[unsafe(no_mangle)]
pub extern "C" fn simmerknot_evaluate(n: u64, table: &[u8], values: &mut [u8]) -> u64
    ensures { HostEvaluation n table.now values.old result values.new }
{
    host::evaluate_bytes(n, table, values)
}

// The question of conflict for a host in C.
#[unsafe(no_mangle)]
pub extern "C" fn simmerknot_conflict(n: u64, table: &[u8]) -> u64
    ensures { HostConflict n table.now result }
{
    host::conflict_bytes(n, table)
}

// The sheet entry for a host in C.
#[unsafe(no_mangle)]
pub extern "C" fn simmerknot_sheet(
    sheet: &[u8],
    words: &mut [u8],
    names: &mut [u8],
    text: &mut [u8],
) -> u64
    ensures { HostSheet sheet.now words.old names.old text.old result words.new names.new text.new }
{
    hostsheet::sheet_bytes(sheet, words, names, text)
}

// The writer of reason sheets for a host in C.
#[unsafe(no_mangle)]
pub extern "C" fn simmerknot_reasons(n: u64, table: &[u8], text: &mut [u8]) -> u64
    ensures { HostReasons n table.now text.old result text.new }
{
    hostreasons::reasons_bytes(n, table, text)
}

// The check of a reason sheet for a host in C.
#[unsafe(no_mangle)]
pub extern "C" fn simmerknot_check_reasons(n: u64, table: &[u8], values: &[u8], text: &[u8]) -> u64
    ensures { HostCheck n table.now values.now text.now result }
{
    hostreasons::check_bytes(n, table, values, text)
}

// SIMMERKNOT_VERSION of include/simmerknot.h: 1,000,000 × major + 1,000 × minor + patch.
#[unsafe(no_mangle)]
pub extern "C" fn simmerknot_version() -> u64
    ensures { result ≡ 4000 }
{
    4000
}
