//! The call that cuts a line into tokens, by what it promises: no other crate makes it.
ghost use Rattle.std.specs.Prelude.{◌≡◌, ◌<◌, ◌^◌, ◌⊎◌, List, Ok, Err, length, map, IfOk, IfErr};
ghost use Rattle.m88_parse.specs.declared.fault.ParseFault.{ParseFault as FaultValue};
ghost use Rattle.m88_parse.specs.Fault.{Gives, out_of_memory};
ghost use Rattle.m88_parse.specs.Language.FirstFaults.{IsTokenFault};
ghost use Rattle.m88_parse.specs.Language.Pieces.{PlainToken, plain_token};
ghost use Rattle.m88_parse.specs.Language.Tokens.{AreTokensOf};

use m88_parse::{ParseFault, Token, tokens};
use std::alloc::Global;

/// The tokens of a line with a number, exactly, or its one fault, exactly, unless memory runs out.
fn cut<'a>(alloc: Global, line: &'a [u8], number: u32) -> Result<Vec<Token<'a>>, ParseFault>
    requires { length line.now < 2 ^ 31 }
    ensures found { IfOk result (λ v. AreTokensOf number line.now (map plain_token v.items)) }
    ensures only { (ts : List PlainToken) → AreTokensOf number line.now ts
        → Gives (λ v. map plain_token v.items) result (Ok ts) }
    ensures fault { IfErr result (λ e. (e ≡ out_of_memory) ⊎ IsTokenFault number line.now e) }
    ensures refused { (e : FaultValue) → IsTokenFault number line.now e
        → Gives (λ v. map plain_token v.items) result (Err e) }
{
    tokens(alloc, line, number)
}

#[test]
fn lines_are_cut_or_refused(rt: HostRuntime) {
    // how many tokens, or the column of the fault
    let rows: [(&[u8], Result<usize, u32>); 4] = [
        (b"", Ok(0)),
        (b" a: or r2 , r0,0x1F ; 'x", Ok(8)),
        (b"or r2,r0,012", Err(10)),
        (b"a \xE9", Err(3)),
    ];
    for (line, wanted) in rows {
        if line.len() < 100 {
            let found = cut(rt.alloc(), line, 1);
            assert!(rt; found.map(|tokens| tokens.len()).map_err(|fault| fault.col) == wanted);
        }
    }
}
