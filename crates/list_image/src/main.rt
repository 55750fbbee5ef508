// Prints the listing of the image on standard input.
#![tactic(auto)]

use image_programs::Kind;

fn main() {
    let mut buffer = [0u8; 50024];
    let mut output = [0u8; 500230];
    image_programs::run(Kind::Listing, &mut buffer, &mut output);
}
