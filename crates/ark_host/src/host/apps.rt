ghost use Rattle.std.specs.Prelude.{◌≡◌, ◌≤◌, ℕ, [], bytes_eq, position, IfSome};
ghost use Rattle.ark_media.specs.Journal.{History};
ghost use Rattle.ark_script.specs.Line as w;
ghost use Rattle.ark_script.specs.Text.{IsSaid};
ghost use Rattle.ark_host.specs.Inside.{KeepsInside};
ghost use Rattle.ark_host.specs.Time.{Counts};
ghost use Rattle.ark_machine.specs.System.{System};

use super::Host;
use super::stored::give_stored;
use ark_base::{AppName, Refusal};
use ark_held::App;
use ark_script::Said;

// At most so many applications are made in a run.
const MAX_APPS: usize = 16;

// The frames of an application that asks for no number.
const USUAL_FRAMES: u64 = 256;

/// The place of the application of this name.
pub fn place_of(apps: &[App], name: &AppName) -> Option<usize>
    ensures place { result ≡ position (λ app. bytes_eq name.now app.name) apps.now }
{
    apps.iter().position(|app| name.same(&app.name))
}

impl Host {
    ghost use Rattle.ark_host.specs.Stands.{Stands, RowDone, app_row};

    // The word `app`: the application holds what is stored for it.
    pub(super) fn make_app(&mut self, name: &AppName, frames: Option<u64>) -> Said
        requires { IfSome frames (λ f. f ≤ 4096) }
        ensures turned { (size : ℕ) (h : History) (s : System) → Stands self.old size h s →
            RowDone self.new size h s name.now (w.app name.now frames)
            (app_row s name.now frames [] result) [] result [] }
        ensures said { IsSaid result }
        ensures counts { Counts self.old self.new 0 0 }
        ensures inside { KeepsInside self.old self.new }
    {
        let frames = frames.unwrap_or(USUAL_FRAMES);
        if place_of(&self.apps, name).is_some() {
            return Said::Refused(Refusal::NameTaken);
        }
        if self.apps.len() >= MAX_APPS {
            return Said::Refused(Refusal::Limit);
        }
        let Ok(mut app) = App::new(self.alloc, *name, frames as u32) else {
            return Said::Refused(Refusal::NoMemory);
        };
        give_stored(&mut app, &self.plane.table);
        let Ok(()) = self.apps.push(app) else {
            return Said::Refused(Refusal::NoMemory);
        };
        Said::Ok
    }
}
