//! The usage text.

ghost use Rattle.std.specs.Prelude.{◌≡◌};
ghost use Rattle.command_line.specs.Usage.{usage_text};

/// The text for words that make no request: a line for each command, in the order of the list of commands.
pub fn usage() -> &'static [u8]
    ensures { result.now ≡ usage_text }
{
    b"usage: koat best [--pivots N] FILE
       koat analyse [--pivots N] FILE
       koat prove [--pivots N] FILE
       koat check FILE PROOF
       koat replay FILE RUN
       koat generate N
       koat selfrun N
       koat facts [--pivots N] FILE
       koat certify [--pivots N] FILE
       koat while [--pivots N] FILE
       koat translate FILE
       koat lasso FILE RUN
       koat lp FILE
"
}
