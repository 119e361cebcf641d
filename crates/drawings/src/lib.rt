// Drawings with the answers of the unchanged Rust, evaluated by the definition: specs/ is the crate's content.
