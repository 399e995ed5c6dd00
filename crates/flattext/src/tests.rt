// A text of two variables and a sum, and names that are free; what is expected is written by hand.
use crate::names::Names;
use crate::text::{Called, text_of};
use flatplaces::places::Place;
use flattokens::Token;
use flatzinc::{Argument, Atom, Call, ModelVariable, Product};
use integers::Bounds;
use models::code::Code;
use std::test::Fail;

#[test]
fn a_text(rt: HostRuntime) -> Result<(), Fail> {
    let alloc = rt.alloc();
    let variables = [
        ModelVariable {
            is_boolean: false,
            bounds: Bounds {
                lower: -3,
                upper: 9,
            },
        },
        ModelVariable {
            is_boolean: true,
            bounds: Bounds { lower: 0, upper: 1 },
        },
    ];
    let mut x = Called {
        name: b"x".to_vec(alloc)?,
        labels: Vec::new(alloc),
        place: Some(Place {
            file: b"m.mzn".to_vec(alloc)?,
            line: 7,
        }),
    };
    x.label(b"a[1]")?;
    x.label(b"x")?;
    let b = Called {
        name: b"b".to_vec(alloc)?,
        labels: Vec::new(alloc),
        place: None,
    };
    let products = vec![in alloc;
        Product {
            coefficient: 2,
            atom: Atom::Variable(0)
        },
        Product {
            coefficient: -1,
            atom: Atom::Variable(0)
        },
    ]?;
    let calls = [Call {
        code: Code::IntLinLeReif,
        arguments: vec![in alloc;
            Argument::Sum(products),
            Argument::Number(-4),
            Argument::One(Atom::Variable(1)),
        ]?,
    }];
    let text = text_of(alloc, &variables, &[x, b], &calls, &[])?;
    let wanted =
        b"var -3..9: x; % 0 a[1] x % m.mzn:7\nvar bool: b; % 1\nconstraint int_lin_le_reif([2,-1],[x,x],-4,b);\nsolve satisfy;\n";
    assert!(rt; text.as_slice() == wanted.as_slice());
    Ok(())
}

#[test]
fn free_names(rt: HostRuntime) -> Result<(), Fail> {
    let mut names = Names::new(rt.alloc());
    names.spell(&[
        Token::Name(b"c3"),
        Token::Name(b"n"),
        Token::Name(b"part_1"),
        Token::Name(b"_x"),
    ])?;
    assert!(rt; names.of_variable(b"c3")?.as_slice() == b"c3".as_slice());
    assert!(rt; names.of_variable(b"_x")?.as_slice() == b"n_1".as_slice());
    assert!(rt;
        names
            .of_variable(b"a_name_of_more_than_thirty_two_bytes")?
            .as_slice()
            == b"n_2".as_slice()
    );
    assert!(rt; names.of_number(3)?.as_slice() == b"c3_1".as_slice());
    assert!(rt; names.of_number(-3)?.as_slice() == b"cm3".as_slice());
    assert!(rt; names.of_truth(true)?.as_slice() == b"true_".as_slice());
    assert!(rt; names.of_part()?.as_slice() == b"part".as_slice());
    assert!(rt; names.of_part()?.as_slice() == b"part_2".as_slice());
    Ok(())
}
