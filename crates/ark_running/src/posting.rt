// Laws of polls that post.
ghost use Rattle.std.specs.Prelude.{◌≡◌, ◌+◌, ◌∷◌, ℕ, false, List, [], Some, None, drop, slice_get};
ghost use Rattle.std.specs.List.{AllByRecursion};
ghost use Rattle.ark_media.specs.Journal.{History};
ghost use Rattle.ark_region.specs.Frames.{Apart, Piece, Space, bytes_of};
ghost use Rattle.ark_vic.specs.Queue.{Queue};
ghost use Rattle.ark_vic.specs.declared.descriptor.Descriptor.{Descriptor};
ghost use Rattle.ark_caladan.specs.Chain as log;
ghost use Rattle.ark_caladan.specs.Chain.{Log, Opened, entries, phases_of};
ghost use Rattle.ark_caladan.specs.Open.{Layout};
ghost use Rattle.ark_log.specs.declared.polling.Polled.{Polled};
ghost use Rattle.ark_log.specs.declared.polling.Polled.TheVariants as polled;
ghost use Rattle.ark_log.specs.declared.stage.Stage.{Stage};
ghost use Rattle.ark_log.specs.Open.{OpenChain};
ghost use Rattle.ark_log.specs.Polled.{Around, EndsWell, HasEnded, HasPolled, IsBegun, IsNothing, IsPosted, ended, stage_of};
ghost use Rattle.ark_running.specs.Accepted.{with_opened};
ghost use Rattle.ark_running.specs.Buffers.{pieces_of};
ghost use Rattle.ark_running.specs.Phases.{IsPhaseUnderWay};
ghost use Rattle.ark_running.specs.Polling.{one_done};
ghost use Rattle.ark_running.specs.Running.{IsRunning};

/// What becomes of it where a poll does nothing; where its oldest command begins, and the first stage of that is posted; and where a
/// descriptor has ended well, and the next stage is posted. A poll leaves bytes that are apart from all its buffers as they were, and
/// takes and frees no frame where it posts.
pub fn posting_laws()
    ensures rests { (h : History) (blocks : List ℕ) (p : Layout) (g : Log) (o : Opened)
        (old new : Around) (result : Polled)
        → IsRunning h blocks old.space old.ring old.chain p g o → IsNothing old new result
        → IsRunning h blocks new.space new.ring new.chain p g o }
    ensures begins { (h : History) (blocks : List ℕ) (p : Layout) (g : Log) (o : Opened)
        (old new : Around) (result : Polled)
        → IsRunning h blocks old.space old.ring old.chain p g o → old.chain.failed ≡ false
        → IsBegun old new result → (stage : Stage) × IsPosted stage old new result }
    ensures starts { (h : History) (blocks : List ℕ) (p : Layout) (g : Log) (o : Opened)
        (old new : Around) (result : Polled)
        → IsRunning h blocks old.space old.ring old.chain p g o → old.chain.failed ≡ false
        → IsBegun old new result → IsRunning h blocks new.space new.ring new.chain p g o }
    ensures goes_on { (h : History) (blocks : List ℕ) (p : Layout) (g : Log) (o : Opened)
        (old new : Around) (result : Polled)
        → IsRunning h blocks old.space old.ring old.chain p g o
        → (ending : HasEnded old new result) → EndsWell ending.ending old new result
        → (stage : Stage) → stage_of (ended old.chain ending.ending.buf) ≡ Some stage
        → IsRunning h blocks new.space new.ring new.chain p (with_opened g (one_done o))
        (one_done o) }
    ensures beside { (h : History) (blocks : List ℕ) (p : Layout) (g : Log) (o : Opened)
        (old new : Around) (result : Polled)
        → IsRunning h blocks old.space old.ring old.chain p g o → HasPolled old new result
        → (b : Piece) → AllByRecursion (λ a. Apart a b) (pieces_of old.chain)
        → bytes_of new.space b ≡ bytes_of old.space b }
    ensures frames { (h : History) (blocks : List ℕ) (p : Layout) (g : Log) (o : Opened)
        (old new : Around) (result : Polled)
        → IsRunning h blocks old.space old.ring old.chain p g o → HasPolled old new result
        → result ≡ polled.Posted → new.space.taken ≡ old.space.taken }
{}

/// The phases of its oldest command, as its machine has them: the one of the descriptor that is posted is the first one left; and
/// behind the last stage none is.
pub fn phase_laws()
    ensures posted { (h : History) (blocks : List ℕ) (space : Space) (ring : Queue)
        (v : OpenChain) (p : Layout) (g : Log) (o : Opened) (m : log.Waiting)
        (ms : List log.Waiting) → IsRunning h blocks space ring v p g o → o.waiting ≡ m ∷ ms
        → (d : Descriptor) → slice_get ring.posted 0 ≡ Some d
        → IsPhaseUnderWay v (phases_of (entries g.list) m.command) o.done d }
    ensures none_left { (h : History) (blocks : List ℕ) (p : Layout) (g : Log) (o : Opened)
        (m : log.Waiting) (ms : List log.Waiting) (old new : Around) (result : Polled)
        → IsRunning h blocks old.space old.ring old.chain p g o → o.waiting ≡ m ∷ ms
        → (ending : HasEnded old new result) → EndsWell ending.ending old new result
        → stage_of (ended old.chain ending.ending.buf) ≡ None
        → drop (o.done + 1) (phases_of (entries g.list) m.command) ≡ [] }
{}
