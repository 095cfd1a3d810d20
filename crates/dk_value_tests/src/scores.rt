//! Scores as a payload: how a record with a rule and a counted list in order is made of fields.
ghost use Rattle.std.specs.Prelude.{◌≡◌};
ghost use Rattle.std.specs.Option.{option_copied};
ghost use Rattle.dk_value_tests.specs.Scores.{is_behind};

use dk_types::{Listed, Name, NoMemory};
use dk_wire::{Form, PayloadRefused, Reader, Writer, put_list, take_list};
use std::alloc::Global;

/// The best score, and the scores of players, which ascend by the players' names.
#[derive(Clone, Debug, Drop, PartialEq, Eq)]
pub struct Scores {
    pub best: u64,
    pub rows: Listed<(Name, u64)>,
}

/// No best score is above this.
pub const BEST_MOST: u64 = 1_000_000;

/// A row: a name, and its score.
pub struct RowForm;

impl Form<(Name, u64)> for RowForm {
    ghost use Rattle.dk_value_tests.specs.Scores.{IsRow, row_spelling, row_at};
    ghost use Rattle.dk_value_tests.specs.ScoresLaws.{row_exact};

    ghost fits = { IsRow };

    ghost spelling = { row_spelling };

    ghost reading = { row_at };

    ghost exact = { row_exact };

    fn put(writer: &mut Writer, row: &(Name, u64)) -> Result<(), NoMemory> {
        writer.put_name(&row.0)?;
        writer.put_u64(row.1)?;
        Ok(())
    }

    #[tactic(auto, unfolding(crate::specs::Scores::row_at))]
    fn take<'a>(
        alloc: Global,
        mut reader: Reader<'a>,
        before: Option<&(Name, u64)>,
    ) -> Result<((Name, u64), Reader<'a>), PayloadRefused> {
        let at = reader.at();
        let name = reader.next_name(alloc)?;
        if !is_name_behind(before, &name) {
            return Err(PayloadRefused::NotInGrammar { at });
        }
        let score = reader.next_u64()?;
        Ok(((name, score), reader))
    }
}

/// All scores.
pub struct ScoresForm;

impl Form<Scores> for ScoresForm {
    ghost use Rattle.dk_value_tests.specs.Scores.{AreScores, scores_spelling, scores_at};
    ghost use Rattle.dk_value_tests.specs.ScoresLaws.{scores_exact};

    ghost fits = { λ _. AreScores };

    ghost spelling = { scores_spelling };

    ghost reading = { λ _. scores_at };

    ghost exact = { λ _. scores_exact };

    fn put(writer: &mut Writer, scores: &Scores) -> Result<(), NoMemory> {
        writer.put_u64(scores.best)?;
        put_list::<(Name, u64), RowForm>(writer, scores.rows.as_slice())?;
        Ok(())
    }

    #[tactic(auto, unfolding(crate::specs::Scores::scores_at))]
    fn take<'a>(
        alloc: Global,
        mut reader: Reader<'a>,
        _: Option<&Scores>,
    ) -> Result<(Scores, Reader<'a>), PayloadRefused> {
        let at = reader.at();
        let best = reader.next_u64()?;
        if best > BEST_MOST {
            return Err(PayloadRefused::NotInGrammar { at });
        }
        let rows = take_list::<(Name, u64), RowForm>(alloc, &mut reader)?;
        Ok((Scores { best, rows }, reader))
    }
}

fn is_name_behind(before: Option<&(Name, u64)>, name: &Name) -> bool
    ensures { result ≡ is_behind (option_copied before.entry) name.now }
{
    match before {
        None => true,
        Some((last, _)) => last < name,
    }
}
