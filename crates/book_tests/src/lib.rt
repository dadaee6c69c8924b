// The two makes of book against each other, on one table of calls with their answers.
#![tactic(auto)]

#[cfg(test)]
mod tests {
    use book::Book;
    use book::calls::{Answer, Call, make_call};
    use book::fault::BookFault;
    use book::values::values;
    use book_makes::slips::SlipsBook;
    use book_makes::table::TableBook;
    use std::process::Abort;
    use std::test::Fail;

    // On a book of two lots with places enough.
    const CALLS: [(Call, Result<Answer, BookFault>); 14] = [
        (Call::Lots, Ok(Answer::Lots(2))),
        (Call::Get { column: 0, lot: 0 }, Ok(Answer::Value(None))),
        (
            Call::Put {
                column: 7,
                lot: 1,
                value: 5,
            },
            Ok(Answer::Done),
        ),
        (
            Call::Put {
                column: 0,
                lot: 1,
                value: -8,
            },
            Ok(Answer::Done),
        ),
        (
            Call::Put {
                column: 3,
                lot: 0,
                value: 0,
            },
            Ok(Answer::Done),
        ),
        (Call::Get { column: 7, lot: 1 }, Ok(Answer::Value(Some(5)))),
        (Call::Get { column: 7, lot: 0 }, Ok(Answer::Value(None))),
        (
            Call::Put {
                column: 7,
                lot: 1,
                value: 6,
            },
            Ok(Answer::Done),
        ),
        (Call::Get { column: 7, lot: 1 }, Ok(Answer::Value(Some(6)))),
        (Call::Get { column: 0, lot: 1 }, Ok(Answer::Value(Some(-8)))),
        (
            Call::Put {
                column: 8,
                lot: -1,
                value: 1,
            },
            Err(BookFault::Column),
        ),
        (
            Call::Put {
                column: 0,
                lot: -1,
                value: 1,
            },
            Err(BookFault::Lot),
        ),
        (Call::Get { column: 0, lot: 2 }, Err(BookFault::Lot)),
        (Call::Get { column: 8, lot: 0 }, Err(BookFault::Column)),
    ];

    // On a book of more lots than there can be, and of one slip.
    const FEW: [(Call, Result<Answer, BookFault>); 6] = [
        (Call::Lots, Ok(Answer::Lots(4096))),
        (
            Call::Put {
                column: 1,
                lot: 4095,
                value: 3,
            },
            Ok(Answer::Done),
        ),
        (
            Call::Put {
                column: 2,
                lot: 4095,
                value: 3,
            },
            Err(BookFault::NoPlace),
        ),
        (
            Call::Put {
                column: 1,
                lot: 4095,
                value: 4,
            },
            Ok(Answer::Done),
        ),
        (
            Call::Get {
                column: 1,
                lot: 4095,
            },
            Ok(Answer::Value(Some(4))),
        ),
        (
            Call::Get {
                column: 2,
                lot: 4095,
            },
            Ok(Answer::Value(None)),
        ),
    ];

    fn answers_are<B: Book>(
        rt: &impl Abort,
        book: &mut B,
        table: &[(Call, Result<Answer, BookFault>)],
    ) {
        for (call, answer) in table {
            assert_eq!(rt; make_call(book, *call), *answer);
        }
    }

    #[test]
    fn makes_agree(rt: HostRuntime) -> Result<(), Fail> {
        let mut table = TableBook::new(rt.alloc(), 2)?;
        let mut slips = SlipsBook::new(rt.alloc(), 2, 16)?;
        answers_are(&rt, &mut table, &CALLS);
        answers_are(&rt, &mut slips, &CALLS);
        let listed = values(rt.alloc(), &table)?;
        assert_eq!(rt; listed.len(), 3);
        assert_eq!(rt; listed, values(rt.alloc(), &slips)?);
        Ok(())
    }

    #[test]
    fn answers_print(rt: HostRuntime) -> Result<(), Fail> {
        let heap = rt.alloc();
        assert_eq!(rt; format!(in heap; "{}", Answer::Done)?.as_str(), "done");
        assert_eq!(rt;
            format!(in heap; "{}", Answer::Value(Some(5)))?.as_str(),
            "value 5"
        );
        assert_eq!(rt;
            format!(in heap; "{}", Answer::Value(None))?.as_str(),
            "none"
        );
        assert_eq!(rt; format!(in heap; "{}", Answer::Lots(2))?.as_str(), "lots 2");
        assert_eq!(rt;
            format!(in heap; "{}", BookFault::NoPlace)?.as_str(),
            "no place is free"
        );
        Ok(())
    }

    #[test]
    fn slips_run_out(rt: HostRuntime) -> Result<(), Fail> {
        let mut slips = SlipsBook::new(rt.alloc(), 5000, 1)?;
        answers_are(&rt, &mut slips, &FEW);
        Ok(())
    }
}
