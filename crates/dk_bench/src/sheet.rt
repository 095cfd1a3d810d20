//! Sheets of numbers, as a game keeps them and raises them.
ghost use Rattle.std.specs.Prelude.{◌≡◌, IfOk};
ghost use Rattle.dk_bench.specs.Sheet as rules;

use dk_refs::{Managed, decode_as};
use dk_types::{Blob, Listed, NoMemory};
use dk_wire::{Form, PayloadRefused, Reader, Writer, put_list, take_list};
use std::alloc::Global;

/// How many numbers stand on a sheet, which is then an object of 16 kB.
const NUMBERS: usize = 2_048;

/// How many bytes such a sheet is: the count of its numbers, and these. A payload that has room for them from the first stays
/// in memory of its own thread; one that grows may not, and then threads wait for one another.
const SHEET_BYTES: usize = 4 + 8 * NUMBERS;

/// A list of numbers.
#[derive(Debug, Drop)]
pub struct Sheet {
    pub numbers: Listed<u64>,
}

/// A number of 64 bits, wherever it stands.
pub struct NumberForm;

impl Form<u64> for NumberForm {
    ghost use Rattle.dk_types.specs.Fields.{IsU64, u64_spelling};
    ghost use Rattle.dk_types.specs.Payload.{next_u64};
    ghost use Rattle.dk_bench.specs.SheetLaws.{each_number_exact};

    ghost fits = { λ _. IsU64 };

    ghost spelling = { u64_spelling };

    ghost reading = { λ _. next_u64 };

    ghost exact = { each_number_exact };

    fn put(writer: &mut Writer, number: &u64) -> Result<(), NoMemory> {
        writer.put_u64(*number)
    }

    fn take<'a>(
        _alloc: Global,
        mut reader: Reader<'a>,
        _: Option<&u64>,
    ) -> Result<(u64, Reader<'a>), PayloadRefused> {
        let number = reader.next_u64()?;
        Ok((number, reader))
    }
}

/// The numbers.
pub struct SheetForm;

impl Form<Sheet> for SheetForm {
    ghost use Rattle.dk_bench.specs.Sheet.{sheet_bytes, next_sheet};
    ghost use Rattle.dk_bench.specs.SheetLaws.{IsSheet, each_sheet_exact};

    ghost fits = { λ _. IsSheet };

    ghost spelling = { sheet_bytes };

    ghost reading = { λ _. next_sheet };

    ghost exact = { each_sheet_exact };

    fn put(writer: &mut Writer, sheet: &Sheet) -> Result<(), NoMemory> {
        put_list::<u64, NumberForm>(writer, sheet.numbers.as_slice())
    }

    #[tactic(auto, unfolding(crate::specs::Sheet::next_sheet))]
    fn take<'a>(
        alloc: Global,
        mut reader: Reader<'a>,
        _: Option<&Sheet>,
    ) -> Result<(Sheet, Reader<'a>), PayloadRefused> {
        let numbers = take_list::<u64, NumberForm>(alloc, &mut reader)?;
        Ok((Sheet { numbers }, reader))
    }
}

impl Managed for Sheet {
    ghost use Rattle.dk_bench.specs.Sheet.{sheet_bytes, sheet_of};
    ghost use Rattle.dk_bench.specs.SheetLaws.{IsSheet, sheet_reads};

    const KIND: u16 = 1;

    ghost KIND = { 1 };

    ghost fits = { IsSheet };

    ghost bytes = { sheet_bytes };

    ghost of = { sheet_of };

    fn encode(&self, alloc: Global) -> Result<Blob, NoMemory> {
        let mut writer = Writer::with_capacity(alloc, SHEET_BYTES)?;
        SheetForm::put(&mut writer, self)?;
        Ok(writer.finish())
    }

    #[tactic(auto, unfolding(crate::specs::Sheet::sheet_of))]
    fn decode(alloc: Global, payload: &Blob) -> Result<Option<Sheet>, NoMemory> {
        decode_as::<Sheet, SheetForm>(alloc, payload.as_slice())
    }

    ghost exact = { sheet_reads };
}

impl Sheet {
    /// A sheet on which each number is 0.
    #[tactic(auto, unfolding(crate::specs::Sheet::blank))]
    pub fn blank(alloc: Global) -> Result<Sheet, NoMemory>
        ensures { IfOk result (λ sheet. sheet ≡ rules.blank) }
    {
        let numbers = vec![in alloc; 0; NUMBERS]?;
        Ok(Sheet {
            numbers: Listed::from_vec(numbers),
        })
    }

    /// The sheet with each number raised by one. The greatest number stays.
    #[tactic(auto, unfolding(crate::specs::Sheet::raised))]
    pub fn raised(&self, alloc: Global) -> Result<Sheet, NoMemory>
        ensures { IfOk result (λ sheet. sheet ≡ rules.raised self.now) }
    {
        let numbers = self
            .numbers
            .as_slice()
            .iter()
            .map(|number| number.saturating_add(1))
            .collect(alloc)?;
        Ok(Sheet {
            numbers: Listed::from_vec(numbers),
        })
    }
}
