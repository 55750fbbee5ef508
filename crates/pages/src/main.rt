// Prints the pages of what the image on standard input holds.
#![tactic(auto)]

use image_programs::Kind;

fn main() {
    let mut buffer = [0u8; 50024];
    let mut output = [0u8; 500230];
    image_programs::run(Kind::Pages, &mut buffer, &mut output);
}
