ghost use Rattle.hex_loader.specs.ReadBack.{IsReadBack};

/// Reading what was written gives the image back. It is a law over the definitions alone.
pub fn reads_back()
    ensures { IsReadBack }
{}
