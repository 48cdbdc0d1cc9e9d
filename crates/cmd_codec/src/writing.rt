ghost use Rattle.std.specs.Prelude.{◌≡◌, ◌++◌, OnOk, IfOk};
ghost use Rattle.byte_formats.specs.Spelling.{Spells};
ghost use Rattle.fh_model.specs.declared.commands.Act.TheVariants.{MakeFolder, Upload};
ghost use Rattle.cmd_codec.specs.Commands.{HasSpelling, act, command, commit_format, kind_of, make_folder, mode_format, upload};

use crate::kinds::kind_of;
use crate::spelling::has_spelling;
use byte_formats::{Field, put_byte};
use fh_model::{Act, Cmd, Commit, Mode, NoMemory, Piece, Text};
use std::alloc::Global;

#[tactic(auto, unfolding(crate::specs::Commands::make_folder))]
fn put_make_folder(out: &mut Vec<u8>, user: u64, path: &Text, rename: bool) -> Result<(), NoMemory>
    requires { make_folder.fits (MakeFolder user path.now rename) }
    ensures { OnOk result (out.new.items ≡ out.old.items ++ make_folder.spell (MakeFolder user path.now rename)) }
{
    user.put(out)?;
    path.put(out)?;
    rename.put(out)
}

fn put_mode(out: &mut Vec<u8>, mode: &Mode) -> Result<(), NoMemory>
    requires { mode_format.fits mode.now }
    ensures { OnOk result (out.new.items ≡ out.old.items ++ mode_format.spell mode.now) }
{
    match mode {
        Mode::Add => put_byte(out, 0),
        Mode::Overwrite => put_byte(out, 1),
        Mode::Update(rev) => {
            put_byte(out, 2)?;
            rev.put(out)
        }
    }
}

#[tactic(auto, unfolding(crate::specs::Commands::commit_format))]
fn put_commit(out: &mut Vec<u8>, commit: &Commit) -> Result<(), NoMemory>
    requires { commit_format.fits commit.now }
    ensures { OnOk result (out.new.items ≡ out.old.items ++ commit_format.spell commit.now) }
{
    commit.path.put(out)?;
    put_mode(out, &commit.mode)?;
    commit.rename.put(out)?;
    commit.strict.put(out)?;
    commit.client.put(out)
}

#[tactic(auto, unfolding(crate::specs::Commands::upload))]
fn put_upload(
    out: &mut Vec<u8>,
    user: u64,
    commit: &Commit,
    drafted: u32,
    last: &Option<Piece>,
) -> Result<(), NoMemory>
    requires { upload.fits (Upload user commit.now drafted last.now) }
    ensures { OnOk result (out.new.items ≡ out.old.items ++ upload.spell (Upload user commit.now drafted last.now)) }
{
    user.put(out)?;
    put_commit(out, commit)?;
    drafted.put(out)?;
    last.put(out)
}

/// Puts the fields of the act at the end.
fn put_act(out: &mut Vec<u8>, what: &Act) -> Result<(), NoMemory>
    requires { (act (kind_of what.now)).fits what.now }
    ensures { OnOk result (out.new.items ≡ out.old.items ++ (act (kind_of what.now)).spell what.now) }
{
    match what {
        Act::MakeFolder { user, path, rename } => put_make_folder(out, *user, path, *rename),
        Act::Upload {
            user,
            commit,
            drafted,
            last,
        } => put_upload(out, *user, commit, *drafted, last),
    }
}

/// The one spelling of the command, which must have one: its moments are at most `LAST_SECOND`, each text in it is
/// shorter than 2^32 bytes, and each piece has 1 to `BLOCK_BYTES` bytes.
#[tactic(auto, unfolding(crate::specs::Commands::command))]
pub fn encode(alloc: Global, cmd: &Cmd) -> Result<Vec<u8>, NoMemory>
    requires { HasSpelling cmd.now }
    ensures { IfOk result (λ bytes. Spells command bytes.items cmd.now) }
{
    prove!(has_spelling(cmd));
    let mut out = Vec::new(alloc);
    put_byte(&mut out, kind_of(&cmd.act))?;
    cmd.seat.put(&mut out)?;
    cmd.at.put(&mut out)?;
    put_act(&mut out, &cmd.act)?;
    Ok(out)
}
