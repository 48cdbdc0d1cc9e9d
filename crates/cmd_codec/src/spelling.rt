ghost use Rattle.std.specs.Prelude.{◌≤◌, ◌↔◌, IfSome, IsTrue};
ghost use Rattle.cmd_codec.specs.Commands.{HasSpelling, IsShort, IsShortCommit, ModeFits, act, command, commit_format, kind_of};
ghost use Rattle.byte_formats.specs.Fields.{moment, last_second};

use byte_formats::Field;
use fh_model::{Act, Cmd, Commit, LAST_SECOND, Mode};

fn mode_has_spelling(mode: &Mode) -> bool
    ensures { IsTrue result × ModeFits mode.now }
{
    match mode {
        Mode::Add => true,
        Mode::Overwrite => true,
        Mode::Update(rev) => rev.has_spelling(),
    }
}

fn client_has_spelling(client: &Option<u64>) -> bool
    ensures { IsTrue result ↔ IfSome client.now (λ client. client ≤ last_second) }
{
    match client {
        None => true,
        Some(client) => *client <= LAST_SECOND,
    }
}

#[tactic(auto, unfolding(crate::specs::Commands::commit_format))]
fn commit_has_spelling(commit: &Commit) -> bool
    ensures short { IsTrue result ↔ IsShortCommit commit.now }
    ensures fit { IsTrue result → commit_format.fits commit.now }
{
    commit.path.has_spelling()
        && mode_has_spelling(&commit.mode)
        && commit.rename.has_spelling()
        && commit.strict.has_spelling()
        && client_has_spelling(&commit.client)
}

#[tactic(auto, unfolding(crate::specs::Commands::make_folder, crate::specs::Commands::upload))]
fn act_has_spelling(what: &Act) -> bool
    ensures short { IsTrue result ↔ IsShort what.now }
    ensures fit { IsTrue result → (act (kind_of what.now)).fits what.now }
{
    match what {
        Act::MakeFolder { user, path, .. } => user.has_spelling() && path.has_spelling(),
        Act::Upload {
            user,
            commit,
            drafted,
            last,
        } => {
            user.has_spelling()
                && commit_has_spelling(commit)
                && drafted.has_spelling()
                && last.has_spelling()
        }
    }
}

/// Whether the command has a spelling, as all have whose moments are at most `LAST_SECOND`, whose texts are shorter
/// than 2^32 bytes and whose pieces have 1 to `BLOCK_BYTES` bytes.
#[tactic(auto, using(crate::proofs::Fits::command_fits))]
pub fn has_spelling(cmd: &Cmd) -> bool
    ensures when { IsTrue result ↔ HasSpelling cmd.now }
    ensures fit { IsTrue result → command.fits cmd.now }
{
    cmd.seat.has_spelling() && cmd.at <= LAST_SECOND && act_has_spelling(&cmd.act)
}
