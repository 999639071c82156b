// Laws of what is acknowledged.
ghost use Rattle.std.specs.Prelude.{◌≡◌, ◌∷◌, ◌++◌, ℕ, List, None, drop, length};
ghost use Rattle.ark_media.specs.Journal.{History};
ghost use Rattle.ark_caladan.specs.Chain as log;
ghost use Rattle.ark_caladan.specs.Chain.{Log, Opened, entries};
ghost use Rattle.ark_caladan.specs.Open.{Layout};
ghost use Rattle.ark_log.specs.declared.polling.Polled.{Polled};
ghost use Rattle.ark_log.specs.declared.polling.Polled.TheVariants as polled;
ghost use Rattle.ark_log.specs.Polled.{Around, EndsWell, HasEnded, ended, stage_of};
ghost use Rattle.ark_log.specs.Stages.{oldest};
ghost use Rattle.ark_log.specs.Stands.{IsCommand};
ghost use Rattle.ark_running.specs.Given.{given_by};
ghost use Rattle.ark_running.specs.Running.{IsRunning};

/// Where the oldest command is acknowledged, the answer is that command of its machine with the length of what it gives, and that is at
/// the front of the bytes.
pub fn giving_laws()
    ensures answers { (h : History) (blocks : List ℕ) (p : Layout) (g : Log) (o : Opened)
        (m : log.Waiting) (ms : List log.Waiting) (old new : Around) (result : Polled)
        → o.waiting ≡ m ∷ ms → IsRunning h blocks old.space old.ring old.chain p g o
        → (ending : HasEnded old new result) → EndsWell ending.ending old new result
        → stage_of (ended old.chain ending.ending.buf) ≡ None
        → IsCommand (oldest old.chain).command m.command × (result
        ≡ polled.Acked (oldest old.chain).command (length (given_by (entries g.list) m.command))) }
    ensures gives { (h : History) (blocks : List ℕ) (p : Layout) (g : Log) (o : Opened)
        (m : log.Waiting) (ms : List log.Waiting) (old new : Around) (result : Polled)
        → o.waiting ≡ m ∷ ms → IsRunning h blocks old.space old.ring old.chain p g o
        → (ending : HasEnded old new result) → EndsWell ending.ending old new result
        → stage_of (ended old.chain ending.ending.buf) ≡ None
        → let bytes = given_by (entries g.list) m.command in
        new.out ≡ bytes ++ drop (length bytes) old.out }
{}
