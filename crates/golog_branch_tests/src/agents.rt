// The agent files of the tests.

/// A door of which it is not known whether it is open: it is looked at, and then gone through or knocked at.
pub const LOOK: &[u8] = b"(agent
    (device wind) (device door)
    (fluent opened () bool)
    (action look () door) (action go ()) (action knock ())
    (exo calm () wind) (exo slam () wind)
    (senses (look) (opened)) (causes (slam) (opened) false)
    (main (seq (act look) (if (opened) (act go) (act knock)))))";

/// The same door, known to be open.
pub const OPEN: &[u8] = b"(agent
    (device wind) (device door)
    (fluent opened () bool) (start (opened) true)
    (action look () door) (action go ()) (action knock ())
    (exo calm () wind) (exo slam () wind)
    (senses (look) (opened)) (causes (slam) (opened) false)
    (main (seq (act look) (if (opened) (act go) (act knock)))))";

/// It is to be open once it was looked at, whatever was seen.
pub const SURE: &[u8] = b"(agent
    (device door)
    (fluent opened () bool)
    (action look () door) (action go ()) (action knock ())
    (senses (look) (opened))
    (main (seq (act look) (test (opened)) (act go))))";

/// It is not looked at.
pub const BLIND: &[u8] = b"(agent
    (device door)
    (fluent opened () bool)
    (action look () door) (action go ()) (action knock ())
    (senses (look) (opened))
    (main (if (opened) (act go) (act knock))))";

/// A test stands in one branch.
pub const TESTED: &[u8] = b"(agent
    (device door)
    (fluent opened () bool)
    (action look () door) (action go ()) (action knock ())
    (senses (look) (opened))
    (main (seq (act look) (if (opened) (seq (act knock) (test (opened)) (act go)) (act knock)))))";

/// In one case the program may end at once, in the other after two steps.
pub const STARRED: &[u8] = b"(agent
    (device door)
    (fluent opened () bool)
    (action look () door) (action knock ())
    (senses (look) (opened))
    (main (seq (act look) (if (opened) (star (act knock)) (seq (act knock) (act knock))))))";

/// Looking first leads nowhere where the door is shut.
pub const LATE: &[u8] = b"(agent
    (device door)
    (fluent opened () bool)
    (action look () door) (action go ()) (action knock ())
    (senses (look) (opened))
    (main (choice (seq (act look) (test (opened)) (act go))
        (seq (act knock) (act look) (act knock) (act knock)))))";

/// One step or two.
pub const SHORT: &[u8] = b"(agent
    (fluent p () bool false)
    (action a ()) (action b ()) (action c ())
    (main (choice (seq (act a) (act c)) (act b))))";

/// A test, a step, and steps that need not be taken.
pub const ENOUGH: &[u8] = b"(agent
    (fluent p () bool false)
    (action a ()) (action b ())
    (main (seq (test (not (p))) (act a) (star (act b)))))";

/// Nothing has to be done.
pub const NOTHING: &[u8] = b"(agent (action a ()) (main (star (act a))))";

/// What is seen tells what may be taken.
pub const COLOURS: &[u8] = b"(agent
    (device eye) (sort colour red green blue)
    (fluent seen () colour)
    (action see () eye) (action take (colour))
    (senses (see) (seen)) (poss (take c) (= (seen) c))
    (main (seq (act see) (pick (c colour) (act take c)))))";

/// Eight bytes are looked at one after another: few states, but too many ways for a tree.
pub const BYTES: &[u8] = b"(agent
    (device d) (sort byte 0 254)
    (fluent p () byte) (fluent q () byte)
    (action look () d) (action shut ())
    (senses (look) (p)) (causes (shut) (p) (q))
    (main (seq (act look) (act shut) (act look) (act shut) (act look) (act shut) (act look) (act shut)
        (act look) (act shut) (act look) (act shut) (act look) (act shut) (act look) (act shut))))";

/// A plan of exactly 10,000 steps: one, for each of 99 values another, for each of ten further ones ten.
pub const TEN_THOUSAND: &[u8] = b"(agent
    (device d) (sort wide 1 99) (sort narrow 1 10)
    (fluent p () wide) (fluent q () narrow)
    (action one () d) (action other () d) (action a ())
    (senses (one) (p)) (senses (other) (q))
    (main (seq (act one) (act other) (act a) (act a) (act a) (act a) (act a) (act a) (act a) (act a) (act a) (act a))))";

/// A plan of 10,001 steps: one, for each of 100 values another, for each of nine further ones eleven.
pub const TEN_THOUSAND_AND_ONE: &[u8] = b"(agent
    (device d) (sort wide 1 100) (sort narrow 1 9)
    (fluent p () wide) (fluent q () narrow)
    (action one () d) (action other () d) (action a ())
    (senses (one) (p)) (senses (other) (q))
    (main (seq (act one) (act other) (act a) (act a) (act a) (act a) (act a) (act a) (act a) (act a) (act a) (act a) (act a))))";

/// A search block stands in the program.
pub const BLOCK: &[u8] = b"(agent (action a ()) (main (search 2 10 (act a))))";

/// A patient may be ill, and dies of the medicine where they are not: the test tells (the domain of medical treatment of
/// Weld, Anderson and Smith, 1998, with one illness).
pub const MEDICATE: &[u8] = b"(agent
    (device lab)
    (fluent ill () bool) (fluent dead () bool false)
    (action inspect () lab) (action medicate ())
    (senses (inspect) (ill))
    (causes (medicate) (dead) true (not (ill))) (causes (medicate) (ill) false)
    (main (seq (act inspect) (star (act medicate)) (test (and (not (ill)) (not (dead)))))))";

/// Behind one of two doors is a tiger, behind the other the way out: listening tells.
pub const DOORS: &[u8] = b"(agent
    (device ear) (sort door left right)
    (fluent tiger () door) (fluent out () bool false)
    (action listen () ear) (action open (door))
    (senses (listen) (tiger))
    (poss (open d) (not (= (tiger) d))) (causes (open d) (out) true)
    (main (seq (star (choice (act listen) (pick (d door) (act open d)))) (test (out)))))";

/// A corridor with walls that stand somewhere: the next cell is felt before each step, and a wall climbed over.
pub const MAZE: &[u8] = b"(agent
    (device hand) (sort cell 1 3)
    (fluent at () cell 1) (fluent walled () bool) (fluent hidden () bool)
    (action feel () hand) (action step ()) (action climb ())
    (senses (feel) (walled))
    (poss (step) (not (walled)))
    (causes (step) (at) (+ (at) 1)) (causes (step) (walled) (hidden))
    (causes (climb) (at) (+ (at) 1)) (causes (climb) (walled) (hidden))
    (main (seq (act feel) (choice (act step) (act climb)) (act feel) (choice (act step) (act climb)) (test (= (at) 3)))))";
