// Variables by their numbers: the first that is free, and the images of arguments.
ghost use Rattle.std.specs.Prelude.{◌≡◌, not};
ghost use Rattle.std.specs.List.{list_any, range_with_len};
ghost use Rattle.golog_regress.specs.Images.{image as spec_image, is_var as spec_is_var, first_free, fresh as spec_fresh};

use golog_tree::Arg;

/// How many variables there are.
const VARIABLES: u8 = 32;

/// Whether the argument is the variable of this number.
fn is_var(number: u8, arg: Arg) -> bool
    ensures { result ≡ spec_is_var number arg }
{
    match arg {
        Arg::Const(_) => false,
        Arg::Var(var) => var == number,
    }
}

/// Whether one of the arguments is the variable of this number.
fn is_used(number: u8, args: &[Arg]) -> bool
    ensures { result ≡ list_any (spec_is_var number) args.now }
{
    args.iter().any(|arg| is_var(number, *arg))
}

/// The first number of a variable that none of the arguments is; 32 where all are used.
pub fn fresh(args: &[Arg]) -> u8
    ensures { result ≡ spec_fresh args.now }
{
    for number in 0..VARIABLES {
        if !is_used(number, args) {
            return number;
        }
    }
    VARIABLES
}

/// The argument with the images of the variables put in, by their numbers.
pub fn image(images: &[Arg], arg: Arg) -> Arg
    ensures { result ≡ spec_image images.now arg }
{
    match arg {
        Arg::Const(_) => arg,
        Arg::Var(var) => match images.get(usize::from(var)) {
            Some(image) => *image,
            None => Arg::Const(0),
        },
    }
}
