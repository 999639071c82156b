// Laws of the definitions, each the contract of a function that does nothing.
ghost use Rattle.std.specs.Prelude.{◌≡◌, ℕ, List, length};
ghost use Rattle.std.specs.List.{AllByRecursion};
ghost use Rattle.ark_media.specs.Journal.{History};
ghost use Rattle.ark_region.specs.Frames.{Piece, Space, bytes_of};
ghost use Rattle.ark_vic.specs.Queue.{Queue};
ghost use Rattle.ark_caladan.specs.Chain.{Log, Opened};
ghost use Rattle.ark_caladan.specs.Listed.{IsListed, SameAt};
ghost use Rattle.ark_caladan.specs.Open.{Layout};
ghost use Rattle.ark_log.specs.Open.{OpenChain};
ghost use Rattle.ark_running.specs.Buffers.{pieces_of};
ghost use Rattle.ark_running.specs.Running.{IsRunning};

/// While it runs its stored list stands, and a stop leaves one of its lists. It goes on where its blocks, its ring and its buffers
/// stay as they are.
pub fn frame_laws()
    ensures listed { (h : History) (blocks : List ℕ) (space : Space) (ring : Queue) (v : OpenChain)
        (p : Layout) (g : Log) (o : Opened) → IsRunning h blocks space ring v p g o
        → IsListed h blocks g }
    ensures same { (h later : History) (blocks : List ℕ) (space after : Space) (ring : Queue)
        (v : OpenChain) (p : Layout) (g : Log) (o : Opened) → length later.base ≡ length h.base
        → SameAt h later blocks → length after.taken ≡ length space.taken
        → AllByRecursion (λ b. bytes_of after b ≡ bytes_of space b) (pieces_of v)
        → IsRunning h blocks space ring v p g o → IsRunning later blocks after ring v p g o }
{}
