//! The lines of a shortage's picture that are always the same, beside those of every picture.

ghost use Rattle.std.specs.Prelude.{◌≡◌};
ghost use Rattle.shortage_picture.specs.Fixed.{brought_close, brought_open, brought_style};

/// The colour of brought activities. It stands behind the other colours, so it covers theirs.
pub fn brought_style() -> &'static [u8]
    ensures { result.now ≡ brought_style }
{
    b"<style>.brought .flight rect,.brought .ground rect{fill:#44aa99}</style>\n"
}

/// Around the brought activities.
pub fn brought_open() -> &'static [u8]
    ensures { result.now ≡ brought_open }
{
    b"<g class='brought'>\n"
}

/// And its end.
pub fn brought_close() -> &'static [u8]
    ensures { result.now ≡ brought_close }
{
    b"</g>\n"
}
