// Listing an image of any bytes.
#![tactic(auto)]

ghost use Rattle.std.specs.Prelude.{◌≡◌, length};
ghost use Rattle.table.specs.Layout.{most_slots};
ghost use Rattle.call_replies.specs.Replies.{sized_of};
ghost use Rattle.call_list.specs.Listed.{list_reply, list_output};

use call_replies::Refusal;
use priority::Constants;

// Write the listing of an image, with `keys` and `tags` to work in.
fn list_in(
    image: &[u8],
    keys: &mut [u64],
    tags: &mut [u64],
    output: &mut [u8],
    constants: &Constants,
) -> Result<usize, Refusal>
    requires { (length keys.old ≡ most_slots) × (length tags.old ≡ most_slots) }
    ensures reply_value { sized_of result ≡ list_reply image.now output.old }
    ensures output_after { output.new ≡ list_output image.now output.old }
{
    let Some(_) = image_recognize::recognize(image, keys, tags, constants) else {
        return Err(Refusal::NotAnImage);
    };
    if output.len() < text_listing::size(image) {
        return Err(Refusal::OutputTooShort);
    }
    Ok(text_listing::write(image, output))
}

// Write the text of an image at the start of `output`; how many bytes it has. Refusals: 6, 11.
pub fn list(image: &[u8], output: &mut [u8]) -> Result<usize, Refusal>
    ensures reply_value { sized_of result ≡ list_reply image.now output.old }
    ensures output_after { output.new ≡ list_output image.now output.old }
{
    let constants = Constants::new();
    let mut keys = [0u64; 4096];
    let mut tags = [0u64; 4096];
    list_in(image, &mut keys, &mut tags, output, &constants)
}
