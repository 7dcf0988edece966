// The worked examples of the book.
ghost use Rattle.book.specs.Examples.{BookHolds, ComparedHolds, SumsHold, ToldHolds};

pub fn book_holds()
    ensures messages { ToldHolds }
    ensures compared { ComparedHolds }
    ensures book { BookHolds }
    ensures sums { SumsHold }
{}
