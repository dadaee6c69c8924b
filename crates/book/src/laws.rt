// The laws of books.
ghost use Rattle.book.specs.Laws.{Laws};

/// What a caller may rely on, whatever a book is made of. The call does nothing: its contract is the laws.
pub fn laws_stand()
    ensures { Laws }
{}
