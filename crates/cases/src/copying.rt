// Reading an element and writing its component again.
ghost use Rattle.cases.specs.Copying.{Copies};

use facility::read_element;

// Reads an element, and writes the component that it holds into the memory; answers whether it was written. What is read
// writes back: where the octets read as a component and there is room for them, the memory then begins with them.
pub fn copy_element(octets: &[u8], memory: &mut [u8]) -> bool
    ensures { Copies octets.now memory.old memory.new result }
{
    // A yes or no is all that is asked; why a component is not written is the answer of `write`.
    match read_element(octets) {
        Ok(component) => component.write(memory).is_ok(),
        Err(_) => false,
    }
}
