//! The first document that uses itself.

ghost use Rattle.std.specs.Prelude.{◌≡◌, IfOk, OnOk, ◌++◌, unwrap_or, slice_get};
ghost use Rattle.std.specs.Option.{option_map, option_to_list};
ghost use Rattle.program_names.specs.Reading.{File as AFile, Sources};
ghost use Rattle.program_types.specs.Numbers.{number_in};
ghost use Rattle.program_passes.specs.UsesOfUnits.{uses_of_files, rows_in};
ghost use Rattle.program_passes.specs.Passed.{IsCycle, numbers_in, path_at};

use program_names::Fault;
use program_types::ProgramFiles;
use qml_base::NoMemory;
use std::alloc::Global;
use unit_cycles::{DocumentUse, first_cycle};

fn push_number(numbers: &mut Vec<usize>, number: Option<usize>) -> Result<(), NoMemory>
    ensures { OnOk result (numbers.new.items ≡ numbers.old.items ++ option_to_list number) }
{
    if let Some(number) = number {
        numbers.push(number)?;
    }
    Ok(())
}

/// The numbers of all files, in their order.
fn numbers_of(alloc: Global, program: &ProgramFiles) -> Result<Vec<usize>, NoMemory>
    ensures { IfOk result (λ numbers. numbers.items ≡ numbers_in program.now program.now) }
{
    let mut numbers = Vec::new(alloc);
    'files: for at in 0..program.len() {
        let Some(file) = program.file(at) else {
            return Ok(numbers);
        };
        push_number(&mut numbers, program.number(file))?;
    }
    Ok(numbers)
}

/// The path of the file of a number.
fn path_of(alloc: Global, program: &ProgramFiles, number: usize) -> Result<Vec<u8>, NoMemory>
    ensures { IfOk result (λ path. path.items ≡ path_at program.now number) }
{
    match program.file(number) {
        Some(file) => Ok(Vec::from_slice(alloc, &file.path)?),
        None => Ok(Vec::new(alloc)),
    }
}

/// The first document of a program that uses itself, by the uses of each, with its fault.
pub fn cycle_of(
    alloc: Global,
    program: &ProgramFiles,
    uses: &[Vec<DocumentUse>],
) -> Result<Option<(Vec<u8>, Fault)>, NoMemory>
    ensures { (sources : Sources) → rows_in uses.now ≡ uses_of_files program.now sources program.now → IfOk result (λ found. IsCycle sources program.now found) }
{
    let order = numbers_of(alloc, program)?;
    match first_cycle(alloc, uses, &order)? {
        Some((number, fault)) => Ok(Some((path_of(alloc, program, number)?, fault))),
        None => Ok(None),
    }
}
