ghost use Rattle.std.specs.Prelude.{◌≡◌, List, OnOk};
ghost use Rattle.ft_tree.specs.meaning.Expression.{expr_pieces};
ghost use Rattle.ft_tree.specs.meaning.Line.{Piece, token};
ghost use Rattle.ft_tree.specs.meaning.Lines.{bound_pieces, kind_pieces, listed, plain_text, range_pieces, sign_pieces, word_pieces};
ghost use Rattle.ft_tree.specs.writing.Writer.{put_all, put};

use crate::expr::Expr;
use crate::expression::{truth, write_expr};
use crate::item::{Bound, Kind, Plain, Word};
use crate::writer::Writer;
use ft_base::NoMemory;

/// A phrase of a line: it has tokens.
pub trait Phrase {
    ghost pieces: { Self → List Piece };

    /// Writes its tokens.
    fn write(&self, writer: &mut Writer) -> Result<(), NoMemory>
        ensures { OnOk result (writer.new ≡ put_all writer.old (pieces self.now)) };
}

/// The tokens of each part, with `,` between them.
#[tactic(auto, using(crate::proofs::WritingLemmas::steps))]
pub fn write_listed<T: Phrase>(writer: &mut Writer, parts: &[T]) -> Result<(), NoMemory>
    ensures { OnOk result (writer.new ≡ put_all writer.old (listed T.pieces parts.now)) }
{
    let Some((first, more)) = parts.split_first() else {
        return Ok(());
    };
    first.write(writer)?;
    for next in more {
        writer.put(b",")?;
        next.write(writer)?;
    }
    Ok(())
}

impl Phrase for Word {
    ghost pieces = { word_pieces };

    #[tactic(auto, using(crate::proofs::WritingLemmas::steps))]
    fn write(&self, writer: &mut Writer) -> Result<(), NoMemory> {
        writer.put(self.text.as_slice())
    }
}

impl Phrase for Expr {
    ghost pieces = { expr_pieces };

    #[tactic(auto, using(crate::proofs::WritingLemmas::steps))]
    fn write(&self, writer: &mut Writer) -> Result<(), NoMemory> {
        write_expr(writer, self)
    }
}

/// A minus where there is one.
#[tactic(auto, using(crate::proofs::WritingLemmas::steps))]
pub fn write_sign(writer: &mut Writer, minus: bool) -> Result<(), NoMemory>
    ensures { OnOk result (writer.new ≡ put_all writer.old (sign_pieces minus)) }
{
    if minus {
        writer.put_minus()?;
    }
    Ok(())
}

#[tactic(auto, using(crate::proofs::WritingLemmas::steps))]
fn write_plain(writer: &mut Writer, value: &Plain) -> Result<(), NoMemory>
    ensures { OnOk result (writer.new ≡ put writer.old (token (plain_text value.now))) }
{
    match value {
        Plain::Number(value) => writer.put_number(*value),
        Plain::Name(name) => writer.put(name.as_slice()),
        Plain::Truth(value) => writer.put(truth(*value)),
    }
}

impl Phrase for Bound {
    ghost pieces = { bound_pieces };

    #[tactic(auto, using(crate::proofs::WritingLemmas::steps))]
    fn write(&self, writer: &mut Writer) -> Result<(), NoMemory> {
        write_sign(writer, self.minus)?;
        write_plain(writer, &self.value)
    }
}

/// The tokens of `lo..hi`.
#[tactic(auto, using(crate::proofs::WritingLemmas::steps))]
pub fn write_range(writer: &mut Writer, lo: &Bound, hi: &Bound) -> Result<(), NoMemory>
    ensures { OnOk result (writer.new ≡ put_all writer.old (range_pieces lo.now hi.now)) }
{
    lo.write(writer)?;
    writer.put(b"..")?;
    hi.write(writer)
}

impl Phrase for Kind {
    ghost pieces = { kind_pieces };

    #[tactic(auto, using(crate::proofs::WritingLemmas::steps))]
    fn write(&self, writer: &mut Writer) -> Result<(), NoMemory> {
        match self {
            Kind::Range(lo, hi) => write_range(writer, lo, hi),
            Kind::Named(word) => word.write(writer),
            Kind::Bool => writer.put(b"bool"),
        }
    }
}
