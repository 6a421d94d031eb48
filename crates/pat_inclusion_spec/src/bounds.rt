// Derivable words, their cuts, and tables of least trees: definitions. No code of the product.
