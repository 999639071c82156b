// Laws of the definitions, each the contract of a function that does nothing.
ghost use Rattle.std.specs.Prelude.{◌≡◌, ◌++◌, List, Bool};
ghost use Rattle.ark_region.specs.Frames.{Piece, AreFramesOf};
ghost use Rattle.ark_vic.specs.declared.descriptor.Completion.{Completion};
ghost use Rattle.ark_udp.specs.Sent.{all_given_back, buffers_of};

/// Once a ring is reaped, the taken frames are those of the buffers that were live beside the ones that were given back.
pub fn reaping_laws()
    ensures stands { (taken : List Bool) (done : List Completion) (before after : List Piece)
        → AreFramesOf taken (before ++ (buffers_of done ++ after))
        → AreFramesOf (all_given_back taken done) (before ++ after) }
{}
