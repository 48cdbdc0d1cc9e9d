ghost use Rattle.std.specs.Prelude.{◌≡◌, ◌↔◌, IsTrue};
ghost use Rattle.state_rows.specs.Rows.{HasSpelling, checkpoint_row, fields, kind_of};

use byte_formats::Field;
use fh_model::Row;

#[tactic(auto, unfolding(crate::specs::Rows::next_numbers, crate::specs::Rows::counters_row, crate::specs::Rows::user_row, crate::specs::Rows::namespace_row))]
fn fields_have_spellings(row: &Row) -> bool
    ensures short { IsTrue result ↔ HasSpelling row.now }
    ensures fit { IsTrue result → (fields (kind_of row.now)).fits row.now }
{
    match row {
        Row::Counters {
            rev,
            id,
            session,
            user,
            namespace,
            moment,
        } => {
            rev.has_spelling()
                && id.has_spelling()
                && session.has_spelling()
                && user.has_spelling()
                && namespace.has_spelling()
                && moment.has_spelling()
        }
        Row::User {
            number,
            home,
            token,
        } => number.has_spelling() && home.has_spelling() && token.has_spelling(),
        Row::Namespace {
            number,
            floor,
            length,
            members,
            ..
        } => {
            number.has_spelling()
                && floor.has_spelling()
                && length.has_spelling()
                && members.has_spelling()
        }
    }
}

/// Whether the row has a spelling, as all have whose token is shorter than 2^32 bytes and whose members are fewer
/// than 2^32.
#[tactic(auto, using(crate::proofs::Fits::row_fits))]
pub fn has_spelling(row: &Row) -> bool
    ensures when { IsTrue result ↔ HasSpelling row.now }
    ensures fit { IsTrue result → checkpoint_row.fits row.now }
{
    fields_have_spellings(row)
}
