// A label as a value that is known to be one. Its functions stand in a module below, since definitions name this struct.
ghost use Rattle.std.specs.Prelude.{◌≡◌, true};
ghost use Rattle.meaning.specs.Labels.{is_label};

pub mod text;

// 1 to 8 letters, digits or hyphens, filled to 8 with spaces, as one number, the first byte highest.
#[derive(Clone, Copy)]
pub struct Label {
    pub code: u64,
    ghost ok: { is_label code ≡ true },
}
