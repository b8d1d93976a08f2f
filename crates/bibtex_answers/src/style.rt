//! The macros of the style `plain`.

ghost use Rattle.std.specs.Prelude.{◌≡◌, IfOk};
ghost use Rattle.bibtex_answers.specs.StyleMacros.{style_macros, with_style, place_in_file};

use std::alloc::AllocError;

/// The macros of the style `plain`, except the months, as definitions: a line each, and an empty line. It takes no memory.
pub fn style_macros() -> &'static [u8]
    ensures { result.now ≡ style_macros }
{
    b"\
    @string{acmcs = {ACM Computing Surveys}}\n\
    @string{acta = {Acta Informatica}}\n\
    @string{cacm = {Communications of the ACM}}\n\
    @string{ibmjrd = {IBM Journal of Research and Development}}\n\
    @string{ibmsj = {IBM Systems Journal}}\n\
    @string{ieeese = {IEEE Transactions on Software Engineering}}\n\
    @string{ieeetc = {IEEE Transactions on Computers}}\n\
    @string{ieeetcad = {IEEE Transactions on Computer-Aided Design of Integrated Circuits}}\n\
    @string{ipl = {Information Processing Letters}}\n\
    @string{jacm = {Journal of the ACM}}\n\
    @string{jcss = {Journal of Computer and System Sciences}}\n\
    @string{scp = {Science of Computer Programming}}\n\
    @string{sicomp = {SIAM Journal on Computing}}\n\
    @string{tocs = {ACM Transactions on Computer Systems}}\n\
    @string{tods = {ACM Transactions on Database Systems}}\n\
    @string{tog = {ACM Transactions on Graphics}}\n\
    @string{toms = {ACM Transactions on Mathematical Software}}\n\
    @string{toois = {ACM Transactions on Office Information Systems}}\n\
    @string{toplas = {ACM Transactions on Programming Languages and Systems}}\n\
    @string{tcs = {Theoretical Computer Science}}\n\
    \n"
}

/// The file after the macros of the style, in the memory that it has, which grows by their length.
pub(crate) fn with_style(file: Vec<u8>) -> Result<Vec<u8>, AllocError>
    ensures { IfOk result (λ text. text.items ≡ with_style file.items) }
{
    let mut text = file;
    let len = text.len();
    text.extend_from_slice(style_macros())?;
    text.rotate_left(len);
    Ok(text)
}

/// The place in the file that has this place after the macros of the style.
pub(crate) fn place_in_file(place: usize) -> usize
    ensures { result ≡ place_in_file place }
{
    place.saturating_sub(style_macros().len())
}
