//! The source of Stenning's protocol, with any number of crashes.

ghost use Rattle.std.specs.Prelude.{◌≡◌, ◌≤ℤ◌, ◌∷◌, ◌++◌, pos, nat_abs, IfOk, codes};
ghost use Rattle.std.specs.Fmt.{decimal};
ghost use Rattle.std.specs.String.{string_bytes};
ghost use Rattle.ioa_links.specs.declared.stenning.TheConstants.{BEFORE, AFTER};
ghost use Rattle.ioa_tree.specs.View.{tree_of};
ghost use Rattle.ioa_tree.specs.WellFormed.{WellFormed};
ghost use Rattle.ioa_links.specs.Trees.{stenning_source};
ghost use Rattle.ioa_links.specs.Delivery.{Delivers};

use ioa_lex::Refusal;
use ioa_syntax::{Source, parse};
use ioa_value::OutOfMemory;
use std::alloc::Global;

/// Its text up to the number of crashes, with one blank after each token.
const BEFORE: &str = r"type Kind = enum { needid , accept , data , ack , cleanup }
type Pkt = tuple { kind : Kind , tag : Int , id : Int , m : Int }
type Ints = seq 16 of Int
type Pkts = seq 16 of Pkt
automaton Reorder ( c : Int )
signature input send ( const c , p : Pkt ) ; output recv ( const c , p : Pkt ) ;
internal drop ( const c ) ; internal rotate ( const c )
states q : Pkts
transitions
input send eff if len ( q ) < 16 then q := append ( q , p ) fi
output recv pre member ( p , q ) propose p := head ( q )
internal drop pre len ( q ) > 0 eff q := tail ( q )
internal rotate pre len ( q ) > 0 eff q := append ( tail ( q ) , head ( q ) )
automaton User
signature input send_msg ( m : Int ) ; input receive_msg ( m : Int )
states sent : Int ; got : Int
transitions
input send_msg eff sent := sent + 1
input receive_msg eff got := got + 1
automaton Crasher ( n : Int )
signature output crash_s ; output recover_s ; output crash_r ; output recover_r
states left : Int := n
transitions
output crash_s pre left > 0 eff left := left - 1
output recover_s
output crash_r pre left > 0 eff left := left - 1
output recover_r
automaton StenSender
signature output send_msg ( m : Int ) ; output send ( const 0 , p : Pkt ) ;
input recv ( const 1 , p : Pkt )
states stable buf : Ints ; stable tag : Int := 1
transitions
output send_msg pre len ( buf ) < 16 propose m := any ( 100 ) eff buf := append ( buf , m )
output send pre len ( buf ) > 0 /\ p = Pkt ( data , tag , 0 , head ( buf ) )
propose p := Pkt ( data , tag , 0 , head ( buf ) )
input recv eff if len ( buf ) > 0 /\ p . tag = tag then
buf := tail ( buf ) ; tag := tag + 1 fi
automaton StenReceiver
signature input recv ( const 0 , p : Pkt ) ; output send ( const 1 , p : Pkt ) ;
output receive_msg ( m : Int )
states stable out : Ints ; stable want : Int := 1 ; owe : Bool
transitions
input recv eff if p . tag = want /\ len ( out ) < 16 then
out := append ( out , p . m ) ; want := want + 1 fi ;
if p . tag < want then owe := true fi
output send pre owe /\ p = Pkt ( ack , want - 1 , 0 , 0 )
propose p := Pkt ( ack , want - 1 , 0 , 0 ) eff owe := false
output receive_msg pre len ( out ) > 0 /\ m = head ( out )
propose m := head ( out ) eff out := tail ( out )
composition Stenning
components S : StenSender crash crash_s recover recover_s ;
D : Reorder ( 0 ) ; A : Reorder ( 1 ) ;
R : StenReceiver crash crash_r recover recover_r ;
C : Crasher ( ";

/// What follows the number and a blank.
const AFTER: &str = r") ; U : User
hidden send , recv
";

/// The source of Stenning's protocol alone, with at most so many crashes.
///
/// # Errors
///
/// `OutOfMemory` where a growth of memory was refused.
pub fn stenning_tree(alloc: Global, crashes: i64) -> Result<Source, OutOfMemory>
    requires { pos 0 ≤ℤ crashes }
    ensures tree { IfOk result (λ s. tree_of s ≡ stenning_source (nat_abs crashes)) }
    ensures fine { IfOk result (λ s. WellFormed (tree_of s)) }
    // It declares a composition, and in all that this performs of any list of actions the delivered messages are a beginning of the sent ones.
    ensures delivers { IfOk result (λ s. Delivers (tree_of s) (codes "Stenning")) }
{
    let text = around(alloc, BEFORE, crashes.unsigned_abs(), AFTER)?;
    match parse(alloc, text.as_bytes()) {
        Ok(source) => Ok(source),
        Err(refusal) => match refusal {
            Refusal::OutOfMemory => Err(OutOfMemory),
            // The text spells a source that is within all limits.
            _ => unreachable!(),
        },
    }
}

/// A number and a blank between two texts.
fn around(alloc: Global, before: &str, number: u64, after: &str) -> Result<String, OutOfMemory>
    ensures { IfOk result (λ s. string_bytes s ≡ before.now ++ (decimal number ++ 32 ∷ after.now)) }
{
    let mut text = String::new(alloc);
    text.push_str(before)?;
    write!(text, "{number}")?;
    text.push(' ')?;
    text.push_str(after)?;
    Ok(text)
}
