ghost use Rattle.std.specs.Prelude.{◌≡◌, false, []};
ghost use Rattle.ark_media.specs.Calls.{Told};
ghost use Rattle.ark_script.specs.Text.{IsSaid, wants_memory};
ghost use Rattle.ark_machine.specs.Logs as logs;
ghost use Rattle.ark_held.specs.Does.{Acts};

use crate::finding::find_open;
use ark_base::Label;
use ark_held::App;
use ark_script::Said;

/// The word `close`.
pub fn close(app: &mut App, label: &Label) -> Said
    ensures acts { (t : Told) →
        Acts t app.old app.new (λ m g. logs.close m label.now g) [] result [] }
    ensures areas { app.new.areas ≡ app.old.areas }
    ensures said { IsSaid result }
    ensures enough { wants_memory result ≡ false }
{
    let at = match find_open(app, label) {
        Err(refusal) => return Said::Refused(refusal),
        Ok(at) => at,
    };
    match app.close_log(at.key) {
        Ok(()) => Said::Ok,
        Err(refusal) => Said::Refused(refusal),
    }
}
