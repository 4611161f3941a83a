// Bytes that open: whoever has them need not ask.
ghost use Rattle.std.specs.Prelude.{◌≡◌};
ghost use Rattle.format.specs.Open.{open_refusal};

// The bytes of a map, which every check of opening passes.
#[derive(Clone, Copy)]
pub struct OpenMap<'a> {
    pub bytes: &'a [u8],
    pub ghost opens: { open_refusal bytes.now ≡ 0 },
}
